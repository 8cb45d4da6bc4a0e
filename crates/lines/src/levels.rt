// A line of a level, whole: four bytes at once, where the byte before them ended a line.
ghost use Rattle.std.specs.Prelude.{◌≡◌, ◌&&◌, ◌+◌, ◌%◌, Some, None, min, eqb, ltb};
ghost use Rattle.laws.specs.Pick.{pick};
ghost use Rattle.lines.specs.Reading.{kind_of, event_number, is_level_line, fresh};

use crate::reading::{event_number, kind_of};
use crate::{Line, MOST_LINES, READING};

// The kind that the four bytes of such a line give; None where they are none.
pub fn level_kind(name: u8, tab: u8, level: u8, end: u8) -> Option<u8>
    ensures { result ≡ pick (is_level_line name tab level end) (Some (kind_of name)) None }
{
    let kind = kind_of(name)?;
    if kind < READING && tab == b'\t' && (level == b'0' || level == b'1') && end == b'\n' {
        return Some(kind);
    }
    None
}

// What it says.
pub fn level_event(kind: u8, level: u8) -> u64
    ensures { result ≡ event_number kind (level % 2) }
{
    event_number(kind, u32::from(level % 2))
}

impl Line {
    // At the start of a line that may come.
    pub fn is_fresh(self) -> bool
        ensures { result ≡ (eqb self.place 0 && ltb self.whole 1000000) }
    {
        self.place == 0 && self.whole < MOST_LINES
    }

    // At the start of the line after the one in hand. The count of whole lines stays at a million.
    pub fn past_line(self) -> Line
        ensures { result ≡ fresh (min 1000000 (self.whole + 1)) }
    {
        Line {
            whole: self.whole.min(MOST_LINES - 1) + 1,
            place: 0,
            kind: 0,
            value: 0,
        }
    }
}
