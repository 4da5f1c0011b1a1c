//! A depot over the files of the system.

ghost use Rattle.std.specs.Prelude.{◌≡◌, ◌↔◌, ℕ, ◌+◌, ◌<◌, ◌≤◌, List, length, take, Some, None, IfOk, OnOk, OnErr, IsErrOf, IfSome, IsTrue, string_bytes};
ghost use Rattle.std.specs.Io.Seek.{MovesTo};
ghost use Rattle.std.specs.Io.KnownBytes.{Keeps, Consumes, IsAtEnd};
ghost use Rattle.pay_edge.specs.Edge.{Rose, one_more, OnlyRead, SameBut};
ghost use Rattle.pay_edge.specs.Outside.{named, stands, told_of, no_files, file_read_faults, file_write_faults, file_fetches, standing, left};

use crate::depot::{Depot, FetchFault, ReplaceFault};
use crate::failures::put_first;
use crate::sink::Failed;
use crate::stream_sink::write_out;
use std::alloc::Global;
use std::fs;
use std::io::{Read, Seek, SeekFrom};
use std::rt::Files;

/// A depot over the files of the system, whose names are paths. It doesn't tell its files, and a file that is not
/// there is a failed fetch. It keeps the name of each failed fetch, and counts failed replaces up to 2^64 - 1.
///
/// The file that was fetched from last stays open. A fetch of the same name past the byte 0 reads on in it, and moves
/// it only where the byte asked for is not the next one. So a read from the front to the end moves nothing, and a pipe
/// can be read; and it reads one version of the file, also where the path is given another file meanwhile. A fetch at
/// the byte 0 opens the path anew, so that a new read of the whole file sees a later version. A fetch of another name
/// opens that file in its place. A fetch that gives an error leaves no file open, and neither does a replace.
///
/// Not promised: one version of a file whose bytes are changed in place while it is read.
#[derive(Drop)]
pub struct FileDepot<R: Files> {
    alloc: Global,
    runtime: R,
    opened: Option<OpenFile<R::File>>,
    // The names whose fetches failed, the newest first.
    failed: Vec<String>,
    fetches: u64,
    write_faults: u64,
}

/// A file that is open, its name, and the byte that it stands at.
#[derive(Drop)]
struct OpenFile<F> {
    name: String,
    file: F,
    place: u64,
}

impl<F> OpenFile<F> {
    /// Whether a fetch of `name` at this byte reads on in the file: it has that name, and the byte is past the front.
    fn is_read_on(&self, name: &str, at: u64) -> bool
        ensures { IsTrue result ↔ (0 < at × (string_bytes self.now.name ≡ name.now)) }
    {
        at != 0 && self.name.as_str() == name
    }
}

impl<R: Files> FileDepot<R> {
    /// A depot over the files that `runtime` reaches, whose counts are 0.
    pub fn new(runtime: R, alloc: Global) -> FileDepot<R>
        ensures read_faults { (name : List ℕ) → file_read_faults result name ≡ 0 }
        ensures fetches { file_fetches result ≡ 0 }
        ensures write_faults { file_write_faults result ≡ 0 }
        ensures closed { standing result ≡ None }
    {
        FileDepot {
            alloc,
            runtime,
            opened: None,
            failed: Vec::new(alloc),
            fetches: 0,
            write_faults: 0,
        }
    }
}

impl<R: Files> Depot for FileDepot<R> {
    ghost files = { no_files };

    ghost read_faults = { file_read_faults };

    ghost write_faults = { file_write_faults };

    ghost fetches = { file_fetches };

    fn fetch(&mut self, name: &str, at: u64, into: &mut [u8]) -> Result<usize, FetchFault>
        requires { 0 < length into.old }

        // As any depot that doesn't tell its files.
        ensures reads { OnlyRead no_files file_read_faults file_write_faults self.old self.new }
        ensures other_names { SameBut name.now (file_read_faults self.old) (file_read_faults self.new) }
        ensures counted { file_fetches self.new ≡ one_more (file_fetches self.old) }
        ensures bound { IfOk result (λ n. n ≤ length into.old) }
        ensures failed { IsErrOf result FetchFault.Failed → Rose (file_read_faults self.old name.now) (file_read_faults self.new name.now) }
        ensures absent { IsErrOf result FetchFault.Absent → ⊥ }
        ensures memory_counts { IsErrOf result FetchFault.NoMemory → file_read_faults self.new name.now ≡ file_read_faults self.old name.now }

        // Each failure counts once, for this name, and nothing else does.
        ensures failed_count { IsErrOf result FetchFault.Failed → file_read_faults self.new name.now ≡ file_read_faults self.old name.now + 1 }
        ensures ok_counts { OnOk result (file_read_faults self.new ≡ file_read_faults self.old) }

        // The file then stands after the bytes that came. After an error none is open.
        ensures standing { IfOk result (λ n. standing self.new ≡ Some (name.now, at + n)) }
        ensures closed { OnErr result (standing self.new ≡ None) }

        // A file that stands at this byte, past the front, is read on: where it tells what it has left, the next bytes come.
        // Fewer than fit come only at its end.
        ensures next { 0 < at → standing self.old ≡ Some (name.now, at) →
            IfOk result (λ n. Consumes (left R.File.remaining self.old) (left R.File.remaining self.new) (take n into.new)) }
        ensures end { IfOk result (λ n. n < length into.old → IsAtEnd (left R.File.remaining self.new)) }
    {
        self.fetches = self.fetches.saturating_add(1);
        let opened = self.opened.take();
        // Room for a note of a failure is taken before the read.
        let noted = String::from_str(self.alloc, name)?;
        self.failed.reserve(1)?;
        // A file that would stand past the byte 2^64 - 1 was not read.
        if let Ok((file, count)) = read_at(&self.runtime, opened, name, at, into)
            && let Some(place) = at.checked_add(count as u64)
        {
            self.opened = Some(OpenFile {
                name: noted,
                file,
                place,
            });
            return Ok(count);
        }
        put_first(&mut self.failed, noted)?;
        Err(FetchFault::Failed)
    }

    fn replace(&mut self, name: &str, bytes: &[u8]) -> Result<(), ReplaceFault>
        // As any depot that doesn't tell its files.
        ensures read_faults { file_read_faults self.new ≡ file_read_faults self.old }
        ensures fetches { file_fetches self.new ≡ file_fetches self.old }
        ensures never_falls { file_write_faults self.old ≤ file_write_faults self.new }
        ensures failed { IsErrOf result ReplaceFault.Failed → Rose (file_write_faults self.old) (file_write_faults self.new) }

        // Each failure counts once, and nothing else does. It takes no memory.
        ensures failed_count { IsErrOf result ReplaceFault.Failed → file_write_faults self.new ≡ one_more (file_write_faults self.old) }
        ensures ok_count { OnOk result (file_write_faults self.new ≡ file_write_faults self.old) }
        ensures memory { IsErrOf result ReplaceFault.NoMemory → ⊥ }

        // No file is open then, so that the next fetch opens its path anew.
        ensures closed { standing self.new ≡ None }
    {
        self.opened = None;
        if write_file(&self.runtime, name, bytes).is_err() {
            self.write_faults = self.write_faults.saturating_add(1);
            return Err(ReplaceFault::Failed);
        }
        Ok(())
    }
}

/// Reads the file `name` from the byte `at` on, until the buffer is full or the file ends. Gives the file, which stands
/// after the bytes that came, and how many came.
fn read_at<R: Files>(
    runtime: &R,
    opened: Option<OpenFile<R::File>>,
    name: &str,
    at: u64,
    into: &mut [u8],
) -> Result<(R::File, usize), Failed>
    ensures bound { IfOk result (λ read. read.1 ≤ length into.old) }
    ensures next { 0 < at → stands opened ≡ Some (name.now, at) →
        IfOk result (λ read. Consumes (told_of R.File.remaining opened) (R.File.remaining read.0) (take read.1 into.new)) }
    ensures end { IfOk result (λ read. read.1 < length into.old → IsAtEnd (R.File.remaining read.0)) }
{
    let mut file = file_at(runtime, opened, name, at)?;
    let count = read_full(&mut file, into)?;
    Ok((file, count))
}

/// The file `name`, moved to the byte `at`: the one that is open, where it is read on, and else the path opened anew.
fn file_at<R: Files>(
    runtime: &R,
    opened: Option<OpenFile<R::File>>,
    name: &str,
    at: u64,
) -> Result<R::File, Failed>
    ensures next { 0 < at → stands opened ≡ Some (name.now, at) → IfOk result (λ file. R.File.remaining file ≡ told_of R.File.remaining opened) }

    // It is moved to a byte of the same file, also back.
    ensures same { 0 < at → named opened ≡ Some name.now → IfOk result (λ file. Keeps (told_of R.File.stream_bytes opened) (R.File.stream_bytes file)) }
{
    let (mut file, place) = match opened.filter(|opened| opened.is_read_on(name, at)) {
        Some(opened) => (opened.file, opened.place),
        None => (fs::File::open(runtime, name)?, 0),
    };
    move_to(&mut file, place, at)?;
    Ok(file)
}

/// Moves a file that stands at the byte `place` to the byte `at`. Where these are the same it leaves the file alone, as a
/// pipe can't be moved.
fn move_to<F: Seek>(file: &mut F, place: u64, at: u64) -> Result<(), Failed>
    ensures same { place ≡ at → file.new ≡ file.old }

    // A file that tells where it stands is then at that byte, and one that tells its bytes keeps them.
    ensures moves { IfSome (F.stream_position file.old) (λ position. position ≡ place) →
        MovesTo (F.stream_position file.old) (F.stream_position file.new) at result }
    ensures bytes { Keeps (F.stream_bytes file.old) (F.stream_bytes file.new) }
{
    if place != at {
        file.seek(SeekFrom::Start(at))?;
    }
    Ok(())
}

/// Reads until the buffer is full or the stream ends. Of a stream that tells what it has left, the bytes are the next.
fn read_full<F: Read>(stream: &mut F, into: &mut [u8]) -> Result<usize, Failed>
    ensures bound { IfOk result (λ count. count ≤ length into.old) }
    ensures bytes { IfOk result (λ count. Consumes (F.remaining stream.old) (F.remaining stream.new) (take count into.new)) }
    ensures end { IfOk result (λ count. count < length into.old → IsAtEnd (F.remaining stream.new)) }
{
    let mut count = 0;
    while count < into.len() {
        match stream.read(&mut into[count..])? {
            0 => break,
            more => count += more,
        }
    }
    Ok(count)
}

/// Makes a file of these bytes, in the place of what was there.
fn write_file<R: Files>(runtime: &R, name: &str, bytes: &[u8]) -> Result<(), Failed> {
    let mut file = fs::File::create(runtime, name)?;
    write_out(&mut file, bytes)
}

#[cfg(test)]
mod tests {
    use super::*;
    use crate::whole::{WholeFault, read_whole};
    use std::alloc::AllocError;
    use std::io;
    use std::io::Write;
    use std::os::fd::AsRawFd;
    use std::test::Fail;

    const WHOLE: &str = "pay_edge_file_depot_whole_test.bin";

    const NAME: &str = "pay_edge_file_depot_test.bin";

    const OTHER: &str = "pay_edge_file_depot_other_test.bin";

    // Bytes that show their order: 251 of them, which come again and again.
    fn pattern(alloc: Global, from: u32, to: u32) -> Result<Vec<u8>, AllocError> {
        (from..to).map(|place| (place % 251) as u8).collect(alloc)
    }

    // Gives the path `NAME` another file.
    fn rename_over<R: Files>(rt: &R, bytes: &[u8]) -> io::Result<()> {
        fs::write(rt, OTHER, bytes)?;
        fs::rename(rt, OTHER, NAME)
    }

    // Whether a fetch at this byte gives the next 1,000 bytes of a file, or as many as there are.
    fn gives<R: Files>(depot: &mut FileDepot<R>, name: &str, at: usize, file: &[u8]) -> bool {
        let mut buffer = [0u8; 1000];
        match depot.fetch(name, at as u64, &mut buffer) {
            Ok(count) => buffer[..count].iter().eq(file.iter().skip(at).take(1000)),
            Err(_) => false,
        }
    }

    #[test]
    fn a_file_and_a_pipe_are_read_to_the_end(rt: HostRuntime) -> Result<(), Fail> {
        let alloc = rt.alloc();
        let file = pattern(alloc, 0, 70_000)?;
        let mut depot = FileDepot::new(&rt, alloc);
        assert!(rt; depot.replace(WHOLE, &file).is_ok());
        let read = read_whole(alloc, &mut depot, WHOLE, 70_000)?;
        assert!(rt; read.as_slice() == file.as_slice());
        fs::remove_file(&rt, WHOLE)?;

        let sent = pattern(alloc, 0, 2_500)?;
        let (reader, mut writer) = io::pipe(&rt)?;
        writer.write_all(&sent)?;
        drop(writer);
        let pipe = format!(in alloc; "/dev/fd/{}", reader.as_raw_fd())?;
        for at in [0, 1_000, 2_000, 2_500, 2_500] {
            assert!(rt; gives(&mut depot, &pipe, at, &sent), "at {at}");
        }

        assert!(rt; depot.failed.is_empty() && depot.write_faults == 0);
        let Err(fault) = read_whole(alloc, &mut depot, WHOLE, 5) else {
            return Err(Fail::new("a file that is not there was read"));
        };
        assert!(rt; fault == WholeFault::Failed && depot.failed.len() == 1);
        assert!(rt; depot.replace("pay_edge_no_such_folder/a", b"") == Err(ReplaceFault::Failed));
        assert!(rt; depot.write_faults == 1);
        Ok(())
    }

    #[test]
    fn one_version_is_read_until_the_path_is_opened_anew(rt: HostRuntime) -> Result<(), Fail> {
        let alloc = rt.alloc();
        let first = pattern(alloc, 0, 3_000)?;
        let later = pattern(alloc, 100, 3_100)?;
        let mut depot = FileDepot::new(&rt, alloc);
        rename_over(&rt, &first)?;
        assert!(rt; gives(&mut depot, NAME, 0, &first));
        rename_over(&rt, &later)?;
        // On to the end, then back, and on from there.
        for at in [1_000, 2_000, 3_000, 500, 1_500] {
            assert!(rt; gives(&mut depot, NAME, at, &first), "at {at}");
        }
        // The path is opened anew by a fetch at the front ..
        assert!(rt; gives(&mut depot, NAME, 0, &later));
        // .. after a fetch of another name ..
        fs::write(&rt, OTHER, first.as_slice())?;
        assert!(rt; gives(&mut depot, OTHER, 500, &first));
        rename_over(&rt, &first)?;
        assert!(rt; gives(&mut depot, NAME, 1_000, &first));
        // .. after a fetch that failed ..
        rename_over(&rt, &later)?;
        assert!(rt; !gives(&mut depot, "pay_edge_no_such_folder/a", 0, &first));
        assert!(rt; gives(&mut depot, NAME, 1_000, &later));
        // .. and after a replace, of whatever name.
        rename_over(&rt, &first)?;
        assert!(rt; depot.replace(OTHER, b"other").is_ok());
        assert!(rt; gives(&mut depot, NAME, 2_000, &first));
        assert!(rt; depot.replace(NAME, &later).is_ok());
        assert!(rt; gives(&mut depot, NAME, 1_000, &later));
        fs::remove_file(&rt, OTHER)?;
        fs::remove_file(&rt, NAME)?;
        Ok(())
    }
}
