//! The names of a script: its variables and its legs.

ghost use Rattle.std.specs.Prelude.{◌≡◌, ℕ, List, not, ◌∷◌, ◌++◌, IfOk, OnOk, map};
ghost use Rattle.std.specs.FinSet as set;
ghost use Rattle.pay_meaning.specs.Parts.{as_leg, as_variable, each_once, names_in, names_of};
ghost use Rattle.pay_tree.specs.NameLists.{set_of, unseen};
ghost use Rattle.pay_tree.specs.PartViews.{part, role};
ghost use Rattle.pay_tree.specs.Views as view;

use crate::name::Name;
use crate::parts::{Part, Role, parts_of};
use crate::tree::Script;
use pay_fixed::NoMemory;
use std::alloc::Global;
use std::collections::BTreeSet;

/// The variables of a script, by their first appearance in its text. A variable is assigned or read.
///
/// # Errors
///
/// [`NoMemory`] where there was no memory for them.
pub fn variables(alloc: Global, script: &Script) -> Result<Vec<Name>, NoMemory>
    ensures { IfOk result (λ names. names.items ≡ names_of as_variable (view.script script.now)) }
{
    names_of(alloc, script, Role::Variable)
}

/// The legs of a script, by their first appearance in its text. A leg is paid.
///
/// # Errors
///
/// [`NoMemory`] where there was no memory for them.
pub fn legs(alloc: Global, script: &Script) -> Result<Vec<Name>, NoMemory>
    ensures { IfOk result (λ names. names.items ≡ names_of as_leg (view.script script.now)) }
{
    names_of(alloc, script, Role::Leg)
}

/// The names that a script uses in this role, by their first appearance in its text.
fn names_of(alloc: Global, script: &Script, asked: Role) -> Result<Vec<Name>, NoMemory>
    ensures { IfOk result (λ names. names.items ≡ names_of (role asked) (view.script script.now)) }
{
    let parts = parts_of(alloc, script)?;
    names_in(alloc, &parts, asked)
}

/// The names that parts use in this role, each once, by their first appearance.
#[tactic(auto, using(crate::proofs::NameLemmas::all_unseen))]
fn names_in(alloc: Global, parts: &[Part<'_>], asked: Role) -> Result<Vec<Name>, NoMemory>
    ensures { IfOk result (λ names. names.items ≡ each_once (names_in (role asked) (map part parts.now))) }
{
    let mut seen = no_names(alloc);
    let mut names = Vec::new(alloc);
    for one in parts {
        if let Some(name) = one.name_in(asked) {
            add_once(alloc, &mut seen, &mut names, name)?;
        }
    }
    Ok(names)
}

/// Appends a name where it was not seen before.
fn add_once(
    alloc: Global,
    seen: &mut BTreeSet<Name>,
    names: &mut Vec<Name>,
    name: &Name,
) -> Result<(), NoMemory>
    ensures { OnOk result ((rest : List (List ℕ)) → names.old.items ++ unseen (set_of seen.old.keys) (each_once (name.now ∷ rest))
        ≡ names.new.items ++ unseen (set_of seen.new.keys) (each_once rest)) }
{
    if add_name(seen, name.copy(alloc)?)? {
        names.push(name.copy(alloc)?)?;
    }
    Ok(())
}

/// No names in order.
fn no_names(alloc: Global) -> BTreeSet<Name>
    ensures { set_of result.keys ≡ set.empty }
{
    BTreeSet::new(alloc)
}

/// Puts a name among others, and tells whether it is new there.
fn add_name(names: &mut BTreeSet<Name>, name: Name) -> Result<bool, NoMemory>
    ensures added { OnOk result (set_of names.new.keys ≡ set.insert (set_of names.old.keys) name) }
    ensures new { IfOk result (λ new. new ≡ not (set.contains (set_of names.old.keys) name)) }
{
    Ok(names.insert(name)?)
}
