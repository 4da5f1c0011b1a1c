//! A file of any depot, read as a whole.

ghost use Rattle.std.specs.Prelude.{◌≡◌, ◌+◌, ◌^◌, ◌<◌, ◌≤◌, length, vec_len, IfOk, IfSome, IsErrOf, IsSomeAnd, IsTrue, IsFalse};
ghost use Rattle.pay_edge.specs.Edge.{Rose, OnlyRead, SameBut, whole_of, IsBegun};
ghost use Rattle.pay_edge.specs.Edge.Whole.{Missing, Long, Bytes};

use crate::depot::{Depot, FetchFault};
use std::alloc::{AllocError, Global};

/// How many bytes are fetched at once.
const BUFFER: usize = 65_536;

/// Why a file was not read as a whole.
#[derive(Clone, Copy, Debug, PartialEq, Eq)]
pub enum WholeFault {
    /// The depot tells its files, and this one is not there.
    Absent,
    /// A fetch failed, and the count of this name's read faults rose.
    Failed,
    /// The file has more bytes than the limit.
    TooLong,
    /// There was no memory for the bytes.
    NoMemory,
}

impl From<AllocError> for WholeFault {
    ghost use Rattle.std.specs.Prelude.{◌≡◌};
    ghost use Rattle.pay_edge.specs.declared.whole.WholeFault.{WholeFault};

    ghost from_gives = { λ _ fault. fault ≡ WholeFault.NoMemory };

    fn from(_: AllocError) -> WholeFault {
        WholeFault::NoMemory
    }
}

impl From<FetchFault> for WholeFault {
    ghost use Rattle.std.specs.Prelude.{◌≡◌};
    ghost use Rattle.pay_edge.specs.WholeFaults.{fault_of_fetch};

    ghost from_gives = { λ fault whole. whole ≡ fault_of_fetch fault };

    fn from(fault: FetchFault) -> WholeFault {
        match fault {
            FetchFault::Absent => WholeFault::Absent,
            FetchFault::Failed => WholeFault::Failed,
            FetchFault::NoMemory => WholeFault::NoMemory,
        }
    }
}

/// The bytes of the file `name`, of which at most `limit` are taken. The limit is at most 2^26.
///
/// It fetches from the front with a buffer of 65,536 bytes, until no bytes come or they are more than the limit. So
/// it fetches at most `limit + 1` times.
///
/// Where the depot tells its files, the bytes are those of the file, from the front to the end. Of a depot that doesn't
/// tell them, it is promised only that the bytes are no more than the limit.
///
/// # Errors
///
/// `Absent` where the depot tells its files and this one is not there, `Failed` where a fetch failed, `TooLong` where
/// the file has more than `limit` bytes, `NoMemory` where there was no memory for the bytes. No file has changed, whatever
/// it answers.
pub fn read_whole<D: Depot>(
    alloc: Global,
    depot: &mut D,
    name: &str,
    limit: u64,
) -> Result<Vec<u8>, WholeFault>
    requires { limit ≤ 2 ^ 26 }

    ensures reads { OnlyRead D.files D.read_faults D.write_faults depot.old depot.new }
    ensures other_names { SameBut name.now (D.read_faults depot.old) (D.read_faults depot.new) }
    ensures fetches { D.fetches depot.new ≤ D.fetches depot.old + (limit + 1) }
    ensures length { IfOk result (λ bytes. length bytes.items ≤ limit) }

    // Where the files are told, each answer but `Failed` and `NoMemory` says what the file is.
    ensures bytes { IfOk result (λ bytes. IfSome (D.files depot.old) (λ files. whole_of files name.now limit ≡ Bytes bytes.items)) }
    ensures too_long { IsErrOf result WholeFault.TooLong → IfSome (D.files depot.old) (λ files. whole_of files name.now limit ≡ Long) }
    ensures absent { IsErrOf result WholeFault.Absent → IsSomeAnd (D.files depot.old) (λ files. whole_of files name.now limit ≡ Missing) }
    ensures failed { IsErrOf result WholeFault.Failed → Rose (D.read_faults depot.old name.now) (D.read_faults depot.new name.now) }
{
    let mut buffer = vec![in alloc; 0u8; BUFFER]?;
    let mut bytes = Vec::new(alloc);
    while read_more(depot, name, limit, &mut buffer, &mut bytes)? {}
    Ok(bytes)
}

/// Fetches what follows the bytes read so far, and says whether any came.
#[tactic(auto, using(crate::proofs::Wholes::begun_more))]
fn read_more<D: Depot>(
    depot: &mut D,
    name: &str,
    limit: u64,
    buffer: &mut [u8],
    bytes: &mut Vec<u8>,
) -> Result<bool, WholeFault>
    requires room { 0 < length buffer.old }
    requires small { limit ≤ 2 ^ 26 }
    requires within { vec_len bytes.old ≤ limit }
    requires front { IfSome (D.files depot.old) (λ files. IsBegun files name.now bytes.old.items) }

    ensures reads { OnlyRead D.files D.read_faults D.write_faults depot.old depot.new }
    ensures other_names { SameBut name.now (D.read_faults depot.old) (D.read_faults depot.new) }
    ensures fetches { D.fetches depot.new ≤ D.fetches depot.old + 1 }
    ensures within { IfOk result (λ _. vec_len bytes.new ≤ limit) }
    ensures more { IfOk result (λ more. IsTrue more → vec_len bytes.old < vec_len bytes.new) }
    ensures front { IfOk result (λ more. IfSome (D.files depot.old) (λ files. IsBegun files name.now bytes.new.items)) }
    ensures end { IfOk result (λ more. IsFalse more → IfSome (D.files depot.old) (λ files. whole_of files name.now limit ≡ Bytes bytes.new.items)) }
    ensures too_long { IsErrOf result WholeFault.TooLong → IfSome (D.files depot.old) (λ files. whole_of files name.now limit ≡ Long) }
    ensures absent { IsErrOf result WholeFault.Absent → IsSomeAnd (D.files depot.old) (λ files. whole_of files name.now limit ≡ Missing) }
    ensures failed { IsErrOf result WholeFault.Failed → Rose (D.read_faults depot.old name.now) (D.read_faults depot.new name.now) }
{
    let count = depot.fetch(name, bytes.len() as u64, buffer)?;
    if count == 0 {
        return Ok(false);
    }
    if bytes.len() + count > limit as usize {
        return Err(WholeFault::TooLong);
    }
    bytes.extend_from_slice(&buffer[..count])?;
    Ok(true)
}
