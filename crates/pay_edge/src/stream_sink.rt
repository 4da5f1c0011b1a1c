//! A sink over a stream.

ghost use Rattle.std.specs.Prelude.{◌≡◌, ℕ, ◌≤◌, take, OnOk, OnErr};
ghost use Rattle.std.specs.Io.KnownBytes.{Appends};
ghost use Rattle.pay_edge.specs.Edge.{Rose, one_more};
ghost use Rattle.pay_edge.specs.Outside.{no_text, stream_faults, held};

use crate::sink::{Failed, Sink};
use std::io::Write;

/// A sink over a stream, as standard output. It doesn't tell its text. A put is written and flushed at once, so that a
/// device that is full is seen. Its faults are the puts that failed, up to 2^64 - 1. Where the stream itself tells what
/// it holds, a put has appended all bytes, and a put that failed some first of them.
#[derive(Drop)]
pub struct StreamSink<W: Write> {
    stream: W,
    faults: u64,
}

impl<W: Write> StreamSink<W> {
    /// A sink over `stream`, to which nothing is written yet, that counts no faults.
    pub fn new(stream: W) -> StreamSink<W>
        ensures faults { stream_faults result ≡ 0 }
        ensures stream { held W.contents result ≡ W.contents stream }
    {
        StreamSink { stream, faults: 0 }
    }
}

impl<W: Write> Sink for StreamSink<W> {
    ghost text = { no_text };

    ghost faults = { stream_faults };

    fn put(&mut self, bytes: &[u8]) -> Result<(), Failed>
        // As any sink that doesn't tell its text.
        ensures never_falls { stream_faults self.old ≤ stream_faults self.new }
        ensures failed { OnErr result (Rose (stream_faults self.old) (stream_faults self.new)) }

        // Each fault counts once, and nothing else does.
        ensures ok_count { OnOk result (stream_faults self.new ≡ stream_faults self.old) }
        ensures failed_count { OnErr result (stream_faults self.new ≡ one_more (stream_faults self.old)) }

        // A stream that tells what it holds has got all bytes, or some first of them.
        ensures written { OnOk result (Appends (held W.contents self.old) (held W.contents self.new) bytes.now) }
        ensures begun { (n : ℕ) × Appends (held W.contents self.old) (held W.contents self.new) (take n bytes.now) }
    {
        if write_out(&mut self.stream, bytes).is_err() {
            self.faults = self.faults.saturating_add(1);
            return Err(Failed);
        }
        Ok(())
    }
}

/// Writes all bytes and flushes. A stream that tells what it holds has got them all, or some first of them.
pub(crate) fn write_out<W: Write>(stream: &mut W, bytes: &[u8]) -> Result<(), Failed>
    ensures ok { OnOk result (Appends (W.contents stream.old) (W.contents stream.new) bytes.now) }
    ensures begun { (n : ℕ) × Appends (W.contents stream.old) (W.contents stream.new) (take n bytes.now) }
{
    write_each(stream, bytes)?;
    stream.flush()?;
    Ok(())
}

/// Writes all bytes. A write that takes none of some bytes is a fault.
fn write_each<W: Write>(stream: &mut W, bytes: &[u8]) -> Result<(), Failed>
    ensures ok { OnOk result (Appends (W.contents stream.old) (W.contents stream.new) bytes.now) }
    ensures begun { (n : ℕ) × Appends (W.contents stream.old) (W.contents stream.new) (take n bytes.now) }
{
    let mut written = 0;
    while written < bytes.len() {
        match stream.write(&bytes[written..])? {
            0 => return Err(Failed),
            count => written += count,
        }
    }
    Ok(())
}

#[cfg(test)]
mod tests {
    use super::*;
    use std::io;
    use std::test::Fail;

    // A stream that takes one byte at once, and eight in all, and notes how many there were at the last flush.
    #[derive(Drop)]
    struct Narrow {
        text: [u8; 8],
        length: usize,
        flushed: usize,
    }

    impl Write for Narrow {
        fn write(&mut self, buf: &[u8]) -> io::Result<usize> {
            let Some(byte) = buf.first() else {
                return Ok(0);
            };
            if self.length >= 8 {
                return Ok(0);
            }
            self.text[self.length] = *byte;
            self.length += 1;
            Ok(1)
        }

        fn flush(&mut self) -> io::Result<()> {
            self.flushed = self.length;
            Ok(())
        }
    }

    // A stream that takes all bytes, and whose flush fails.
    #[derive(Drop)]
    struct Unflushed;

    impl Write for Unflushed {
        fn write(&mut self, buf: &[u8]) -> io::Result<usize> {
            Ok(buf.len())
        }

        fn flush(&mut self) -> io::Result<()> {
            Err(io::Error::from(io::ErrorKind::TimedOut))
        }
    }

    #[test]
    fn a_flush_that_fails_is_a_fault(rt: HostRuntime) -> Result<(), Fail> {
        let mut sink = StreamSink::new(Unflushed);
        assert!(rt; sink.put(b"hello") == Err(Failed));
        assert!(rt; sink.faults == 1);
        Ok(())
    }

    #[test]
    fn a_stream_is_written_in_pieces_until_it_takes_no_more(rt: HostRuntime) -> Result<(), Fail> {
        let mut sink = StreamSink::new(Narrow {
            text: [0; 8],
            length: 0,
            flushed: 0,
        });
        assert!(rt; sink.put(b"hello") == Ok(()));
        assert!(rt; sink.stream.flushed == 5);
        assert!(rt; sink.put(b"") == Ok(()));
        assert!(rt; sink.faults == 0);
        assert!(rt; sink.put(b"world") == Err(Failed));
        assert!(rt; sink.faults == 1);
        assert!(rt; sink.stream.text.as_slice() == b"hellowor".as_slice());
        Ok(())
    }
}
