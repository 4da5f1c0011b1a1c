//! The marks of the parts of an event.

ghost use Rattle.std.specs.Prelude.{◌≡◌, ◌<◌, length, OnOk};
ghost use Rattle.pay_analysis.specs.Marks.{is_flagged, marks_at, put_mark};

use pay_domains::Flags;
use pay_fixed::{Fixed, NoMemory};

/// What is known of a part of an event in every run that evaluates it.
#[derive(Clone, Copy, PartialEq, Eq, Debug)]
pub enum Mark {
    /// No run evaluates it, or there is no such part.
    Unreached,
    /// A number.
    Number {
        /// Its value, where it is the same in every run and the number can't fault; in raws of 1/10,000.
        point: Option<Fixed>,
    },
    /// A test.
    Test {
        /// Its answer, where that is the same in every run in which it doesn't fault.
        truth: Option<bool>,
        /// Whether it can fault.
        flagged: bool,
    },
}

/// The marks of the parts of an event.
#[derive(Drop)]
pub struct Marks {
    /// The mark of the part with the id `i` at place `i`. A part that has no place here is [`Mark::Unreached`].
    pub marks: Vec<Mark>,
}

/// Whether a fault is flagged.
pub fn is_flagged(flags: Flags) -> bool
    ensures { result ≡ is_flagged flags }
{
    flags.overflow || flags.zero || flags.missing
}

/// Gives the part with this id a mark, in place of any that it had.
pub fn set_mark(marks: &mut Vec<Mark>, id: u32, mark: Mark) -> Result<(), NoMemory>
    ensures { OnOk result (marks_at marks.new.items ≡ put_mark (marks_at marks.old.items) id mark) }
{
    let place = id as usize;
    make_room(marks, place)?;
    marks[place] = mark;
    Ok(())
}

/// Makes room for a mark at this place, which is below 2^32.
fn make_room(marks: &mut Vec<Mark>, place: usize) -> Result<(), NoMemory>
    requires { place < 4_294_967_296 }
    ensures same { OnOk result (marks_at marks.new.items ≡ marks_at marks.old.items) }
    ensures room { OnOk result (place < length marks.new.items) }
{
    if marks.len() <= place {
        marks.resize(place + 1, Mark::Unreached)?;
    }
    Ok(())
}
