//! Why an input is refused.

use pay_dates::Day;
use pay_roll::What;

/// Why an input is refused.
#[derive(Clone, Copy, PartialEq, Eq, Debug)]
pub enum Refusal {
    /// The file has more bytes than its limit.
    TooLong {
        /// How many it may have.
        limit: u32,
    },
    /// At this place of the script neither a blank, a comment nor a token begins.
    BadByte {
        /// The place of the byte, from 0.
        at: u32,
    },
    /// The number or the name that begins at this place of the script is too large.
    TooLarge {
        /// The place of its first byte, from 0.
        at: u32,
    },
    /// At the token that begins at this place of the script too many brackets or ifs are open, or too many operators
    /// stand in its stretch.
    TooDeep {
        /// The place of its first byte, from 0.
        at: u32,
    },
    /// The tokens of the text spell no script.
    NotScript,
    /// The first date of this schedule of the script isn't before its last, or its step isn't of 1 to 999 units.
    BadSchedule {
        /// The number of the item, from 1.
        item: u32,
    },
    /// Two events of the script have this date, and no earlier one is shared.
    SameDate {
        /// The date.
        date: Day,
    },
    /// The file has more of these than its limit.
    TooMany {
        /// What it has too many of.
        what: What,
        /// How many there may be.
        limit: u32,
    },
    /// The file has no first record, or it isn't the header of such a file.
    BadHeader,
    /// A field in the place of a date is none of the years 1900 to 2199 as `YYYY-MM-DD`.
    BadDate {
        /// Its column in a scenario file, its row in a fixings file, from 1.
        place: u32,
    },
    /// A date is in the file once more.
    RepeatedDate {
        /// Its column in a scenario file, its row in a fixings file, from 1.
        place: u32,
    },
    /// A row of the file has more or fewer fields than its header.
    BadRow {
        /// The row, from 1.
        row: u32,
    },
    /// The first field of a row of the scenario file is no label: 1 to 64 ASCII letters, digits, `_`, `.` and `-`.
    BadName {
        /// The row, from 1.
        row: u32,
    },
    /// A cell of the file is neither empty nor a decimal of a magnitude of at most 10^15 raws of 1/10,000.
    BadCell {
        /// The row, from 1.
        row: u32,
        /// The column, from 1.
        column: u32,
    },
}
