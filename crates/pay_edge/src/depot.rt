//! A place of files by name.

ghost use Rattle.std.specs.Prelude.{◌≡◌, ℕ, ◌<◌, ◌≤◌, List, length, IfOk, OnOk, IsErr, IsErrOf, IfSome, IsSomeAnd};
ghost use Rattle.std.specs.declared.option.Option.{Option};
ghost use Rattle.std.specs.FinMap as map;
ghost use Rattle.pay_edge.specs.Edge.{Files, Rose, one_more, OnlyRead, SameBut, Fetches, IsAbsent, SameOthers, replaced};

use std::alloc::{AllocError, AllocFailed};

/// There was no memory for the call.
#[derive(Clone, Copy, Debug, PartialEq, Eq)]
pub struct NoMemory;

impl From<AllocError> for NoMemory {
    fn from(_: AllocError) -> NoMemory {
        NoMemory
    }
}

impl<T: Drop> From<AllocFailed<T>> for NoMemory {
    fn from(_: AllocFailed<T>) -> NoMemory {
        NoMemory
    }
}

/// Why a fetch gave no bytes.
#[derive(Clone, Copy, Debug, PartialEq, Eq)]
pub enum FetchFault {
    /// The depot tells its files, and this one is not there.
    Absent,
    /// The read failed, and the count of this name's read faults rose.
    Failed,
    /// There was no memory to keep a note of a failure.
    NoMemory,
}

impl From<NoMemory> for FetchFault {
    ghost use Rattle.std.specs.Prelude.{◌≡◌};
    ghost use Rattle.pay_edge.specs.declared.depot.FetchFault.{FetchFault};

    ghost from_gives = { λ _ fault. fault ≡ FetchFault.NoMemory };

    fn from(_: NoMemory) -> FetchFault {
        FetchFault::NoMemory
    }
}

impl From<AllocError> for FetchFault {
    ghost use Rattle.std.specs.Prelude.{◌≡◌};
    ghost use Rattle.pay_edge.specs.declared.depot.FetchFault.{FetchFault};

    ghost from_gives = { λ _ fault. fault ≡ FetchFault.NoMemory };

    fn from(_: AllocError) -> FetchFault {
        FetchFault::NoMemory
    }
}

/// Why a file was not replaced.
#[derive(Clone, Copy, Debug, PartialEq, Eq)]
pub enum ReplaceFault {
    /// The write failed, and the count of write faults rose.
    Failed,
    /// There was no memory for the bytes.
    NoMemory,
}

impl From<NoMemory> for ReplaceFault {
    ghost use Rattle.std.specs.Prelude.{◌≡◌};
    ghost use Rattle.pay_edge.specs.declared.depot.ReplaceFault.{ReplaceFault};

    ghost from_gives = { λ _ fault. fault ≡ ReplaceFault.NoMemory };

    fn from(_: NoMemory) -> ReplaceFault {
        ReplaceFault::NoMemory
    }
}

/// A place of files by name.
///
/// A depot means its files, or tells nothing of them; a count of read faults for each name; a count of write faults;
/// and how often it was asked for bytes. A count rose where it is greater than before, or stands at 2^64 - 1.
pub trait Depot {
    /// The files by name, or nothing where the depot doesn't tell them.
    ghost files: { Self → Option Files };

    /// How often a fetch of a name has failed.
    ghost read_faults: { Self → List ℕ → ℕ };

    /// How often a replace has failed.
    ghost write_faults: { Self → ℕ };

    /// How often bytes were asked for, up to 2^64 - 1.
    ghost fetches: { Self → ℕ };

    /// Reads bytes of the file `name` from the byte `at` on into the front of `into`, which has room for at least one.
    /// Gives how many, and 0 exactly where `at` is not before the file's end. Fewer than fit may come.
    ///
    /// # Errors
    ///
    /// `Absent` where the files are told and this one is not there, `Failed` where the read failed, `NoMemory`
    /// where a failure could not be noted.
    fn fetch(&mut self, name: &str, at: u64, into: &mut [u8]) -> Result<usize, FetchFault>
        requires { 0 < length into.old }

        // It changes no file, and leaves the count of write faults and the read faults of other names.
        ensures reads { OnlyRead files read_faults write_faults self.old self.new }
        ensures other_names { SameBut name.now (read_faults self.old) (read_faults self.new) }

        // It is counted, whatever it answers.
        ensures counted { fetches self.new ≡ one_more (fetches self.old) }

        ensures bound { IfOk result (λ n. n ≤ length into.old) }
        ensures bytes { IfOk result (λ n. IfSome (files self.old) (λ all.
            IsSomeAnd (map.get all name.now) (λ file. Fetches file at n into.new))) }

        ensures failed { IsErrOf result FetchFault.Failed → Rose (read_faults self.old name.now) (read_faults self.new name.now) }

        // A depot that doesn't tell its files answers no `Absent`.
        ensures absent { IsErrOf result FetchFault.Absent → IsAbsent (files self.old) name.now }
        ensures absent_counts { IsErrOf result FetchFault.Absent → read_faults self.new name.now ≡ read_faults self.old name.now }
        ensures not_there { IsAbsent (files self.old) name.now → IsErr result }
        ensures memory_counts { IsErrOf result FetchFault.NoMemory → read_faults self.new name.now ≡ read_faults self.old name.now };

    /// Puts `bytes` in the place of the file `name`, or makes that file.
    ///
    /// # Errors
    ///
    /// `Failed` where the write failed: the file may then hold anything, or be absent. `NoMemory` where there was no
    /// room for the bytes: nothing has changed.
    fn replace(&mut self, name: &str, bytes: &[u8]) -> Result<(), ReplaceFault>
        // It leaves all counts of read faults.
        ensures read_faults { read_faults self.new ≡ read_faults self.old }
        ensures fetches { fetches self.new ≡ fetches self.old }

        // Other files stand, whatever it answers.
        ensures other_files { SameOthers name.now (files self.old) (files self.new) }

        ensures ok { OnOk result (files self.new ≡ replaced (files self.old) name.now bytes.now) }
        ensures never_falls { write_faults self.old ≤ write_faults self.new }
        ensures failed { IsErrOf result ReplaceFault.Failed → Rose (write_faults self.old) (write_faults self.new) }
        ensures memory_files { IsErrOf result ReplaceFault.NoMemory → files self.new ≡ files self.old }
        ensures memory_counts { IsErrOf result ReplaceFault.NoMemory → write_faults self.new ≡ write_faults self.old };
}
