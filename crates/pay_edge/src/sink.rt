//! A place that takes bytes in order.

ghost use Rattle.std.specs.Prelude.{◌≡◌, ℕ, ◌≤◌, List, [], is_some, OnOk, OnErr};
ghost use Rattle.std.specs.declared.option.Option.{Option};
ghost use Rattle.pay_edge.specs.Edge.{Rose, appended, AppendsFront};

use std::io;

/// A write failed.
#[derive(Clone, Copy, Debug, PartialEq, Eq)]
pub struct Failed;

impl From<io::Error> for Failed {
    fn from(_: io::Error) -> Failed {
        Failed
    }
}

/// A place that takes bytes in order.
///
/// A sink means all bytes put so far, or tells nothing of them, and a count of faults. Whether it tells them never
/// changes. A count rose where it is greater than before, or stands at 2^64 - 1.
pub trait Sink {
    /// All bytes put, or nothing where the sink doesn't tell them.
    ghost text: { Self → Option (List ℕ) };

    /// How often a put has failed.
    ghost faults: { Self → ℕ };

    /// Appends `bytes`.
    ///
    /// # Errors
    ///
    /// `Failed` where the write failed: some first bytes of `bytes` are then appended, or none.
    fn put(&mut self, bytes: &[u8]) -> Result<(), Failed>
        ensures ok { OnOk result (text self.new ≡ appended (text self.old) bytes.now) }

        // Whatever it answers, some first bytes are appended. A put of no bytes appends nothing.
        ensures front { AppendsFront (text self.old) (text self.new) bytes.now }
        ensures empty { bytes.now ≡ [] → text self.new ≡ text self.old }
        ensures tells { is_some (text self.new) ≡ is_some (text self.old) }

        ensures never_falls { faults self.old ≤ faults self.new }
        ensures failed { OnErr result (Rose (faults self.old) (faults self.new)) };
}
