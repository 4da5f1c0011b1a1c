//! Names whose reads failed, and numbers of calls that are to fail.

ghost use Rattle.std.specs.Prelude.{◌≡◌, ◌∷◌, OnOk, OnErr};
ghost use Rattle.pay_edge.specs.Failures.{IsNoted, is_planned};

use crate::depot::NoMemory;
use std::alloc::Global;

/// Notes a name at the front of a list.
pub(crate) fn note_failure(
    alloc: Global,
    names: &mut Vec<String>,
    name: &str,
) -> Result<(), NoMemory>
    ensures ok { OnOk result (IsNoted name.now names.old.items names.new.items) }
    ensures err { OnErr result (names.new.items ≡ names.old.items) }
{
    let noted = String::from_str(alloc, name)?;
    put_first(names, noted)
}

/// Puts a name at the front of a list.
pub(crate) fn put_first(names: &mut Vec<String>, noted: String) -> Result<(), NoMemory>
    ensures ok { OnOk result (names.new.items ≡ noted ∷ names.old.items) }
    ensures err { OnErr result (names.new.items ≡ names.old.items) }
{
    names.insert(0, noted)?;
    Ok(())
}

/// Whether the call after `calls` others is one of those planned.
pub(crate) fn next_is_planned(planned: &[u64], calls: u64) -> bool
    ensures { result ≡ is_planned planned.now calls }
{
    planned.contains(&calls.saturating_add(1))
}
