//! The facts before an event.

ghost use Rattle.std.specs.Prelude.{◌≡◌, false, IfOk, map};
ghost use Rattle.pay_domains.specs.Pieces.{point};
ghost use Rattle.pay_analysis.specs.Walking.{AreAllRaws, AreDomains};

use pay_domains::Domain;
use pay_fixed::{Fixed, NoMemory};
use std::alloc::Global;

/// What is known before an event, in every run.
#[derive(Drop)]
pub struct Facts {
    /// The raws that each variable can have, by its number.
    pub domains: Vec<Domain>,
    /// Whether the fixing at the event's date is known to be there.
    pub known: bool,
}

impl Facts {
    /// The facts at the start, where the variables have these values: each has its value alone, and the fixing isn't known to be there.
    ///
    /// # Errors
    ///
    /// [`NoMemory`] where there was no memory.
    pub fn start(alloc: Global, values: &[Fixed]) -> Result<Facts, NoMemory>
        ensures domains { IfOk result (λ facts. facts.domains.items ≡ map point values.now) }
        ensures known { IfOk result (λ facts. facts.known ≡ false) }
        ensures good { IfOk result (λ facts. AreDomains facts.domains.items) }
        ensures within { IfOk result (λ facts. AreAllRaws facts.domains.items) }
    {
        let mut domains = Vec::with_capacity(alloc, values.len())?;
        for value in values {
            domains.push(Domain::point(alloc, value.raw())?)?;
        }
        Ok(Facts {
            domains,
            known: false,
        })
    }
}
