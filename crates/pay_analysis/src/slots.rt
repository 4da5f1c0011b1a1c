//! What variables can give.

ghost use Rattle.std.specs.Prelude.{◌≡◌, IfOk};
ghost use Rattle.pay_domains.specs.Operators.{no_flags};
ghost use Rattle.pay_domains.specs.Pieces.{AreRaws};
ghost use Rattle.pay_facts.specs.SlotFacts.{slot_domain};
ghost use Rattle.pay_analysis.specs.Walking.{AreAllRaws};
ghost use Rattle.pay_ranges.specs.Views.{range_of};

use pay_domains::Domain;
use pay_fixed::NoMemory;
use pay_ranges::{Range, no_flags};
use std::alloc::Global;

/// The range of a variable.
pub fn slot_range(
    alloc: Global,
    domains: &[Domain],
    slot: u32,
    known: bool,
) -> Result<Range, NoMemory>
    requires { AreAllRaws domains.now }
    ensures same { IfOk result (λ range. range_of range ≡ record { domain = slot_domain domains.now slot; flags = no_flags; known = known }) }
    ensures within { IfOk result (λ range. AreRaws range.domain) }
{
    Ok(Range {
        domain: copy_slot(alloc, domains, slot)?,
        flags: no_flags(),
        known,
    })
}

/// The raws of a variable once more; past the end it has 0 alone.
pub fn copy_slot(alloc: Global, domains: &[Domain], slot: u32) -> Result<Domain, NoMemory>
    ensures { IfOk result (λ domain. domain ≡ slot_domain domains.now slot) }
{
    match domains.get(slot as usize) {
        Some(domain) => domain.copy(),
        None => Domain::point(alloc, 0),
    }
}
