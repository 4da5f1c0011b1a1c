//! A sink in memory, which fails where it is asked to.

ghost use Rattle.std.specs.Prelude.{◌≡◌, ◌≤◌, ◌∷◌, [], is_some, length, vec_len, IfOk, OnOk, OnErr, IsOk, IsErr, IsTrue, IsFalse};
ghost use Rattle.std.specs.Vec.{vec_capacity};
ghost use Rattle.pay_edge.specs.Edge.{Rose, one_more, appended, AppendsFront};

use crate::depot::NoMemory;
use crate::failures::next_is_planned;
use crate::sink::{Failed, Sink};
use std::alloc::Global;

/// A sink in memory. It tells its text. Its puts fail where that was asked for, or where the text would be longer than
/// its room. A put takes no memory.
#[derive(Drop)]
pub struct MemorySink {
    text: Vec<u8>,
    room: u32,
    puts_to_fail: Vec<u64>,
    puts: u64,
    faults: u64,
    ghost reserved: { room ≤ vec_capacity text },
    ghost within: { vec_len text ≤ room },
}

impl MemorySink {
    ghost use Rattle.pay_edge.specs.MemorySink.{sink_text, sink_faults, sink_puts, sink_room, planned_puts, IsNewSink};

    /// A sink with no text that takes up to `room` bytes, whose counts are 0 and whose puts are not to fail.
    ///
    /// # Errors
    ///
    /// `NoMemory` where there was no memory for so many bytes.
    pub fn new(alloc: Global, room: u32) -> Result<MemorySink, NoMemory>
        ensures { IfOk result (IsNewSink room) }
    {
        let text = Vec::with_capacity(alloc, room as usize)?;
        Ok(MemorySink {
            text,
            room,
            puts_to_fail: Vec::new(alloc),
            puts: 0,
            faults: 0,
        })
    }

    /// Asks that the put with this number fails. The first put has the number 1, and from the number 2^64 - 1 on all
    /// have that one.
    ///
    /// # Errors
    ///
    /// `NoMemory` where there was no memory for the number: nothing has changed.
    pub fn fail_put(&mut self, call: u64) -> Result<(), NoMemory>
        ensures ok { OnOk result (planned_puts self.new ≡ call ∷ planned_puts self.old) }
        ensures err { OnErr result (planned_puts self.new ≡ planned_puts self.old) }
        ensures text { sink_text self.new ≡ sink_text self.old }
        ensures room { sink_room self.new ≡ sink_room self.old }
        ensures puts { sink_puts self.new ≡ sink_puts self.old }
        ensures faults { sink_faults self.new ≡ sink_faults self.old }
    {
        self.puts_to_fail.insert(0, call)?;
        Ok(())
    }

    /// All bytes put.
    pub fn text(&self) -> &[u8]
        ensures { result.now ≡ sink_text self.now }
    {
        &self.text
    }
}

impl MemorySink {
    ghost use Rattle.pay_edge.specs.MemorySink.{refuses};

    /// Whether the next put is to fail, or has no room for so many bytes.
    fn next_put_refuses(&self, size: usize) -> bool
        ensures { result ≡ refuses self.now size }
    {
        next_is_planned(&self.puts_to_fail, self.puts)
            || size > self.room as usize - self.text.len()
    }
}

impl Sink for MemorySink {
    ghost use Rattle.pay_edge.specs.MemorySink.{sink_text, sink_told, sink_faults, sink_puts, sink_room, planned_puts, refuses};

    ghost text = { sink_told };

    ghost faults = { sink_faults };

    fn put(&mut self, bytes: &[u8]) -> Result<(), Failed>
        // As any sink.
        ensures ok { OnOk result (sink_told self.new ≡ appended (sink_told self.old) bytes.now) }
        ensures front { AppendsFront (sink_told self.old) (sink_told self.new) bytes.now }
        ensures empty { bytes.now ≡ [] → sink_told self.new ≡ sink_told self.old }
        ensures tells { is_some (sink_told self.new) ≡ is_some (sink_told self.old) }
        ensures never_falls { sink_faults self.old ≤ sink_faults self.new }
        ensures failed { OnErr result (Rose (sink_faults self.old) (sink_faults self.new)) }

        // It fails exactly where its number was given, or the text would be longer than the room.
        ensures refused { IsTrue (refuses self.old (length bytes.now)) → IsErr result }
        ensures taken { IsFalse (refuses self.old (length bytes.now)) → IsOk result }

        // It then appends nothing, and raises the count of faults by one.
        ensures nothing { OnErr result (sink_text self.new ≡ sink_text self.old) }
        ensures failed_count { OnErr result (sink_faults self.new ≡ one_more (sink_faults self.old)) }
        ensures ok_count { OnOk result (sink_faults self.new ≡ sink_faults self.old) }
        ensures counted { sink_puts self.new ≡ one_more (sink_puts self.old) }
        ensures room { sink_room self.new ≡ sink_room self.old }
        ensures planned { planned_puts self.new ≡ planned_puts self.old }
    {
        let refused = self.next_put_refuses(bytes.len());
        self.puts = self.puts.saturating_add(1);
        if refused {
            self.faults = self.faults.saturating_add(1);
            return Err(Failed);
        }
        match self.text.extend_from_slice(bytes) {
            Ok(()) => Ok(()),
            Err(_) => unreachable!(),
        }
    }
}

#[cfg(test)]
mod tests {
    use super::*;
    use std::test::Fail;

    #[test]
    fn a_put_fails_where_that_was_asked_for_or_the_room_is_short(
        rt: HostRuntime,
    ) -> Result<(), Fail> {
        let mut sink = MemorySink::new(rt.alloc(), 3)?;
        sink.fail_put(2)?;
        assert!(rt; sink.put(b"four") == Err(Failed));
        assert!(rt; sink.put(b"123") == Err(Failed));
        assert!(rt; sink.put(b"123") == Ok(()));
        assert!(rt; sink.text() == b"123".as_slice());
        Ok(())
    }

    #[test]
    fn a_put_past_the_room_appends_nothing(rt: HostRuntime) -> Result<(), Fail> {
        let mut sink = MemorySink::new(rt.alloc(), 3)?;
        assert!(rt; sink.put(b"12") == Ok(()));
        assert!(rt; sink.put(b"34") == Err(Failed));
        assert!(rt; sink.text() == b"12".as_slice());
        Ok(())
    }
}
