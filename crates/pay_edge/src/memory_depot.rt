//! A depot in memory, which fails where it is asked to.

ghost use Rattle.std.specs.Prelude.{◌≡◌, ◌⊎◌, ◌<◌, ◌≤◌, ◌∷◌, ◌+◌, ◌-◌, min, length, drop, IsTrue, IsFalse};
ghost use Rattle.std.specs.Prelude.{IfOk, OnOk, OnErr, IsErr, IsErrOf, IfSome, IsSomeAnd};
ghost use Rattle.std.specs.Option.{option_map};
ghost use Rattle.std.specs.FinMap as map;
ghost use Rattle.pay_edge.specs.Edge.{Rose, one_more, OnlyRead, SameBut, Fetches, IsAbsent, SameOthers, replaced};
ghost use Rattle.pay_edge.specs.MemoryDepot.{memory_files, memory_told, memory_read_faults, memory_write_faults, memory_fetches, memory_replaces};
ghost use Rattle.pay_edge.specs.MemoryDepot.{planned_fetches, planned_replaces, fails_fetch, fails_replace, IsNewDepot, SameCounts, SamePlans};

use crate::depot::{Depot, FetchFault, NoMemory, ReplaceFault};
use crate::failures::{next_is_planned, note_failure};
use std::alloc::Global;

/// A depot in memory. It tells its files. Its calls fail where that was asked for, and else only for want of memory. A
/// fetch gives as many bytes as there are and fit, and leaves the rest of the buffer.
#[derive(Drop)]
pub struct MemoryDepot {
    alloc: Global,
    // The newest first.
    entries: Vec<Entry>,
    // The names whose fetches failed, the newest first.
    failed: Vec<String>,
    fetches_to_fail: Vec<u64>,
    replaces_to_fail: Vec<u64>,
    fetches: u64,
    replaces: u64,
    write_faults: u64,
}

/// A file.
#[derive(Drop)]
struct Entry {
    name: String,
    bytes: Vec<u8>,
}

impl MemoryDepot {
    /// A depot with no files, whose counts are 0 and whose calls are not to fail.
    pub fn new(alloc: Global) -> MemoryDepot
        ensures { IsNewDepot result }
    {
        MemoryDepot {
            alloc,
            entries: Vec::new(alloc),
            failed: Vec::new(alloc),
            fetches_to_fail: Vec::new(alloc),
            replaces_to_fail: Vec::new(alloc),
            fetches: 0,
            replaces: 0,
            write_faults: 0,
        }
    }

    /// Stores `bytes` as the file `name`, in the place of what that file had. It is no replace: it has no number, and
    /// is not asked to fail.
    ///
    /// # Errors
    ///
    /// `NoMemory` where there was no memory for the name or the bytes: nothing has changed.
    pub fn add(&mut self, name: &str, bytes: &[u8]) -> Result<(), NoMemory>
        ensures ok { OnOk result (memory_files self.new ≡ map.insert (memory_files self.old) name.now bytes.now) }
        ensures err { OnErr result (memory_files self.new ≡ memory_files self.old) }
        ensures counts { SameCounts self.old self.new }
        ensures plans { SamePlans self.old self.new }
    {
        let name = String::from_str(self.alloc, name)?;
        let bytes = bytes.to_vec(self.alloc)?;
        self.entries.insert(0, Entry { name, bytes })?;
        Ok(())
    }

    /// Asks that the fetch with this number fails. The first fetch has the number 1, and from the number 2^64 - 1 on
    /// all have that one.
    ///
    /// # Errors
    ///
    /// `NoMemory` where there was no memory for the number: nothing has changed.
    pub fn fail_fetch(&mut self, call: u64) -> Result<(), NoMemory>
        ensures ok { OnOk result (planned_fetches self.new ≡ call ∷ planned_fetches self.old) }
        ensures err { OnErr result (planned_fetches self.new ≡ planned_fetches self.old) }
        ensures replaces { planned_replaces self.new ≡ planned_replaces self.old }
        ensures files { memory_files self.new ≡ memory_files self.old }
        ensures counts { SameCounts self.old self.new }
    {
        self.fetches_to_fail.insert(0, call)?;
        Ok(())
    }

    /// Asks that the replace with this number fails. The first replace has the number 1, and from the number 2^64 - 1
    /// on all have that one.
    ///
    /// # Errors
    ///
    /// `NoMemory` where there was no memory for the number: nothing has changed.
    pub fn fail_replace(&mut self, call: u64) -> Result<(), NoMemory>
        ensures ok { OnOk result (planned_replaces self.new ≡ call ∷ planned_replaces self.old) }
        ensures err { OnErr result (planned_replaces self.new ≡ planned_replaces self.old) }
        ensures fetches { planned_fetches self.new ≡ planned_fetches self.old }
        ensures files { memory_files self.new ≡ memory_files self.old }
        ensures counts { SameCounts self.old self.new }
    {
        self.replaces_to_fail.insert(0, call)?;
        Ok(())
    }

    /// The bytes of the file `name`, or nothing where there is no such file.
    pub fn bytes_of(&self, name: &str) -> Option<&[u8]>
        ensures { option_map (λ bytes. bytes.now) result ≡ map.get (memory_files self.now) name.now }
    {
        for entry in &self.entries {
            if name == entry.name.as_str() {
                return Some(&entry.bytes);
            }
        }
        None
    }

    /// Whether the next fetch is to fail.
    fn next_fetch_fails(&self) -> bool
        ensures { result ≡ fails_fetch self.now }
    {
        next_is_planned(&self.fetches_to_fail, self.fetches)
    }

    /// Whether the next replace is to fail.
    fn next_replace_fails(&self) -> bool
        ensures { result ≡ fails_replace self.now }
    {
        next_is_planned(&self.replaces_to_fail, self.replaces)
    }
}

/// Copies what a file has from the byte `at` on into the front of a buffer, and says how many bytes.
fn copy_from(file: &[u8], at: u64, into: &mut [u8]) -> usize
    requires { 0 < length into.old }
    ensures bound { result ≤ length into.old }
    ensures bytes { Fetches file.now at result into.new }
    ensures most { result ≡ min (length into.old) (length file.now - at) }
    ensures rest { drop result into.new ≡ drop result into.old }
{
    if at >= file.len() as u64 {
        return 0;
    }
    let rest = &file[at as usize..];
    let count = rest.len().min(into.len());
    into[..count].copy_from_slice(&rest[..count]);
    count
}

impl Depot for MemoryDepot {
    ghost files = { memory_told };

    ghost read_faults = { memory_read_faults };

    ghost write_faults = { memory_write_faults };

    ghost fetches = { memory_fetches };

    fn fetch(&mut self, name: &str, at: u64, into: &mut [u8]) -> Result<usize, FetchFault>
        requires { 0 < length into.old }

        // As any depot.
        ensures reads { OnlyRead memory_told memory_read_faults memory_write_faults self.old self.new }
        ensures other_names { SameBut name.now (memory_read_faults self.old) (memory_read_faults self.new) }
        ensures counted { memory_fetches self.new ≡ one_more (memory_fetches self.old) }
        ensures bound { IfOk result (λ n. n ≤ length into.old) }
        ensures bytes { IfOk result (λ n. IfSome (memory_told self.old) (λ all.
            IsSomeAnd (map.get all name.now) (λ file. Fetches file at n into.new))) }
        ensures failed { IsErrOf result FetchFault.Failed → Rose (memory_read_faults self.old name.now) (memory_read_faults self.new name.now) }
        ensures absent_counts { IsErrOf result FetchFault.Absent → memory_read_faults self.new name.now ≡ memory_read_faults self.old name.now }
        ensures memory_counts { IsErrOf result FetchFault.NoMemory → memory_read_faults self.new name.now ≡ memory_read_faults self.old name.now }
        ensures absent { IsErrOf result FetchFault.Absent → IsAbsent (memory_told self.old) name.now }
        ensures not_there { IsAbsent (memory_told self.old) name.now → IsErr result }

        // It fails exactly where its number was given, or there is then no memory to note the failure.
        ensures chosen { IsTrue (fails_fetch self.old) → IsErrOf result FetchFault.Failed ⊎ IsErrOf result FetchFault.NoMemory }
        ensures failed_only { IsErrOf result FetchFault.Failed → IsTrue (fails_fetch self.old) }
        ensures memory_only { IsErrOf result FetchFault.NoMemory → IsTrue (fails_fetch self.old) }

        // Else it answers `Absent` exactly where the file isn't there.
        ensures absent_only { IsErrOf result FetchFault.Absent → IsFalse (fails_fetch self.old) }
        ensures absent_there { IsFalse (fails_fetch self.old) → map.get (memory_files self.old) name.now ≡ None → IsErrOf result FetchFault.Absent }

        // A failure raises the count of that name by one.
        ensures failed_count { IsErrOf result FetchFault.Failed → memory_read_faults self.new name.now ≡ memory_read_faults self.old name.now + 1 }
        ensures ok_counts { OnOk result (memory_read_faults self.new ≡ memory_read_faults self.old) }
        ensures replaces { memory_replaces self.new ≡ memory_replaces self.old }
        ensures plans { SamePlans self.old self.new }

        // As many bytes come as there are and fit. The rest of the buffer stands, and all of it where no bytes come.
        ensures most { IfOk result (λ n. IsSomeAnd (map.get (memory_files self.old) name.now) (λ file. n ≡ min (length into.old) (length file - at))) }
        ensures rest { IfOk result (λ n. drop n into.new ≡ drop n into.old) }
        ensures buffer { OnErr result (into.new ≡ into.old) }
    {
        let fails = self.next_fetch_fails();
        self.fetches = self.fetches.saturating_add(1);
        if fails {
            note_failure(self.alloc, &mut self.failed, name)?;
            return Err(FetchFault::Failed);
        }
        match self.bytes_of(name) {
            Some(file) => Ok(copy_from(file, at, into)),
            None => Err(FetchFault::Absent),
        }
    }

    fn replace(&mut self, name: &str, bytes: &[u8]) -> Result<(), ReplaceFault>
        // As any depot.
        ensures read_faults { memory_read_faults self.new ≡ memory_read_faults self.old }
        ensures fetches { memory_fetches self.new ≡ memory_fetches self.old }
        ensures other_files { SameOthers name.now (memory_told self.old) (memory_told self.new) }
        ensures ok { OnOk result (memory_told self.new ≡ replaced (memory_told self.old) name.now bytes.now) }
        ensures memory_files { IsErrOf result ReplaceFault.NoMemory → memory_told self.new ≡ memory_told self.old }
        ensures never_falls { memory_write_faults self.old ≤ memory_write_faults self.new }
        ensures failed { IsErrOf result ReplaceFault.Failed → Rose (memory_write_faults self.old) (memory_write_faults self.new) }
        ensures memory_counts { IsErrOf result ReplaceFault.NoMemory → memory_write_faults self.new ≡ memory_write_faults self.old }

        // It fails exactly where its number was given.
        ensures chosen { IsTrue (fails_replace self.old) → IsErrOf result ReplaceFault.Failed }
        ensures failed_only { IsErrOf result ReplaceFault.Failed → IsTrue (fails_replace self.old) }

        // Where it isn't Ok, the files are as they were. A failure raises the count by one.
        ensures unchanged { OnErr result (memory_files self.new ≡ memory_files self.old) }
        ensures failed_count { IsErrOf result ReplaceFault.Failed → memory_write_faults self.new ≡ one_more (memory_write_faults self.old) }
        ensures ok_count { OnOk result (memory_write_faults self.new ≡ memory_write_faults self.old) }
        ensures counted { memory_replaces self.new ≡ one_more (memory_replaces self.old) }
        ensures plans { SamePlans self.old self.new }
    {
        let fails = self.next_replace_fails();
        self.replaces = self.replaces.saturating_add(1);
        if fails {
            self.write_faults = self.write_faults.saturating_add(1);
            return Err(ReplaceFault::Failed);
        }
        self.add(name, bytes)?;
        Ok(())
    }
}

#[cfg(test)]
mod tests {
    use super::*;
    use crate::whole::{WholeFault, read_whole};
    use std::test::Fail;

    // The bytes of the file `a`, which are read in three fetches: 65,536 bytes, 4,464 bytes and none.
    const SIZE: usize = 70_000;

    // The name, the limit, the fetch that fails, and the fault.
    const WHOLES: [(&str, u64, u64, Option<WholeFault>); 6] = [
        ("a", 70_000, 4, None),
        ("a", 69_999, 4, Some(WholeFault::TooLong)),
        ("a", 70_000, 1, Some(WholeFault::Failed)),
        ("a", 70_000, 2, Some(WholeFault::Failed)),
        ("a", 70_000, 3, Some(WholeFault::Failed)),
        ("b", 70_000, 4, Some(WholeFault::Absent)),
    ];

    #[test]
    fn a_file_is_read_whole_or_refused(rt: HostRuntime) -> Result<(), Fail> {
        let alloc = rt.alloc();
        let file = vec![in alloc; 7u8; SIZE]?;
        for (name, limit, failing, fault) in WHOLES {
            assert!(rt; limit <= 70_000);
            let mut depot = MemoryDepot::new(alloc);
            depot.add("a", &file)?;
            depot.fail_fetch(failing)?;
            match read_whole(alloc, &mut depot, name, limit) {
                Ok(bytes) => assert!(rt; fault.is_none() && bytes.as_slice() == file.as_slice()),
                Err(other) => assert!(rt; fault == Some(other)),
            }
        }
        Ok(())
    }

    #[test]
    fn a_replace_fails_where_that_was_asked_for(rt: HostRuntime) -> Result<(), Fail> {
        let mut depot = MemoryDepot::new(rt.alloc());
        depot.fail_replace(2)?;
        assert!(rt; depot.replace("a", b"one").is_ok());
        assert!(rt; depot.replace("a", b"two") == Err(ReplaceFault::Failed));
        assert!(rt; depot.bytes_of("a") == Some(b"one".as_slice()));
        assert!(rt; depot.replace("a", b"three").is_ok());
        assert!(rt; depot.bytes_of("a") == Some(b"three".as_slice()));
        Ok(())
    }
}
