//! The facts of two branches: those of the variables that a choice changes are kept while the other branch is walked.

ghost use Rattle.std.specs.Prelude.{◌≡◌, ◌&&◌, length, IfOk, OnOk, get_or, set};
ghost use Rattle.pay_domains.specs.Operators.{united};
ghost use Rattle.pay_domains.specs.Pieces.{AreRaws};
ghost use Rattle.pay_facts.specs.SlotFacts.{slot_domain};
ghost use Rattle.pay_analysis.specs.Walking.{all_joined_with, all_put, domains_of, put_out, AreAllRaws};

use crate::facts::Facts;
use crate::slots::copy_slot;
use pay_domains::Domain;
use pay_fixed::NoMemory;
use pay_ranges::Range;
use std::alloc::Global;
use std::mem;

/// A variable has this range now.
pub fn assign(facts: &mut Facts, slot: u32, range: Range)
    ensures domains { facts.new.domains.items ≡ set facts.old.domains.items slot range.domain }
    ensures known { facts.new.known ≡ range.known }
{
    put(&mut facts.domains, slot, range.domain);
    facts.known = range.known;
}

/// A variable has these raws now, if there is one of this number.
fn put(domains: &mut Vec<Domain>, slot: u32, domain: Domain)
    ensures { domains.new.items ≡ set domains.old.items slot domain }
{
    let place = slot as usize;
    if place < domains.len() {
        domains[place] = domain;
    }
}

/// What is kept of facts while a branch is walked.
#[derive(Drop)]
pub struct Kept {
    /// The raws of the variables that the choice changes.
    pub domains: Vec<Domain>,
    /// Whether the fixing is known to be there.
    pub known: bool,
}

/// The raws of these variables once more, and whether the fixing is known to be there.
pub fn keep(alloc: Global, facts: &Facts, changes: &Vec<u32>) -> Result<Kept, NoMemory>
    ensures domains { IfOk result (λ kept. kept.domains.items ≡ domains_of facts.now.domains.items changes.now.items) }
    ensures known { IfOk result (λ kept. kept.known ≡ facts.now.known) }
{
    let mut domains = Vec::with_capacity(alloc, changes.len())?;
    for slot in changes {
        domains.push(copy_slot(alloc, &facts.domains, *slot)?)?;
    }
    Ok(Kept {
        domains,
        known: facts.known,
    })
}

/// Exchanges the raws of these variables, and whether the fixing is known to be there, with those that were kept.
pub fn exchange(facts: &mut Facts, changes: &Vec<u32>, kept: &mut Kept)
    requires { length kept.now.domains.items ≡ length changes.now.items }
    ensures domains { facts.new.domains.items ≡ all_put facts.old.domains.items changes.now.items kept.old.domains.items }
    ensures known { facts.new.known ≡ kept.old.known }
    ensures kept { kept.new.domains.items ≡ put_out facts.old.domains.items changes.now.items kept.old.domains.items }
    ensures kept_known { kept.new.known ≡ facts.old.known }
{
    mem::swap(&mut facts.known, &mut kept.known);
    exchange_domains(&mut facts.domains, changes, &mut kept.domains);
}

/// Exchanges the raws of these variables with those that were kept.
fn exchange_domains(domains: &mut Vec<Domain>, changes: &[u32], kept: &mut Vec<Domain>)
    requires { length kept.now.items ≡ length changes.now }
    ensures domains { domains.new.items ≡ all_put domains.old.items changes.now kept.old.items }
    ensures kept { kept.new.items ≡ put_out domains.old.items changes.now kept.old.items }
{
    for (index, slot) in changes.iter().enumerate() {
        exchange_domain(domains, *slot, &mut kept[index]);
    }
}

/// Exchanges the raws of a variable with those that were kept, if there is one of this number.
fn exchange_domain(domains: &mut Vec<Domain>, slot: u32, kept: &mut Domain)
    ensures domains { domains.new.items ≡ set domains.old.items slot kept.old }
    ensures kept { kept.new ≡ get_or domains.old.items slot kept.old }
{
    let place = slot as usize;
    if place < domains.len() {
        mem::swap(&mut domains[place], kept);
    }
}

/// Joins the facts of the other branch, as they were kept, to these: each of these variables has the raws of either, and the fixing is known to be
/// there where both know it.
pub fn join(facts: &mut Facts, changes: &Vec<u32>, kept: Kept) -> Result<(), NoMemory>
    requires { length kept.domains.items ≡ length changes.now.items }
    ensures domains { OnOk result (facts.new.domains.items ≡ all_joined_with facts.old.domains.items changes.now.items kept.domains.items) }
    ensures known { OnOk result (facts.new.known ≡ (kept.known && facts.old.known)) }
    ensures limits { AreAllRaws facts.old.domains.items → AreAllRaws kept.domains.items → OnOk result (AreAllRaws facts.new.domains.items) }
{
    facts.known = kept.known && facts.known;
    join_domains(&mut facts.domains, changes, &kept.domains)
}

/// Each of these variables has the raws that were kept too.
fn join_domains(domains: &mut Vec<Domain>, changes: &[u32], kept: &[Domain]) -> Result<(), NoMemory>
    requires { length kept.now ≡ length changes.now }
    ensures same { OnOk result (domains.new.items ≡ all_joined_with domains.old.items changes.now kept.now) }
    ensures limits { AreAllRaws domains.old.items → AreAllRaws kept.now → OnOk result (AreAllRaws domains.new.items) }
{
    for (index, slot) in changes.iter().enumerate() {
        join_domain(domains, *slot, &kept[index])?;
    }
    Ok(())
}

/// A variable has the raws that were kept too, if there is one of this number.
fn join_domain(domains: &mut Vec<Domain>, slot: u32, kept: &Domain) -> Result<(), NoMemory>
    ensures same { OnOk result (domains.new.items ≡ set domains.old.items slot (united kept.now (slot_domain domains.old.items slot))) }
    ensures limits { AreAllRaws domains.old.items → AreRaws kept.now → OnOk result (AreAllRaws domains.new.items) }
{
    let place = slot as usize;
    if place < domains.len() {
        domains[place] = kept.union(&domains[place])?;
    }
    Ok(())
}
