// One line of a trace text, a byte at a time. The player over whole texts is `trace`.
//
// Its calls are inner ones, for the player, each for every line: next, what a byte makes of it; closing, whether a
// byte ends it; event, what it says; fits, its ranges; ended, the end of the text. Four of them take a line of a level
// whole: is_fresh, level_kind, level_event, past_line.
#![tactic(auto, unfolding(laws::specs::Pick::pick))]

mod levels;
mod reading;

pub use levels::{level_event, level_kind};

// So many lines a text may have.
const MOST_LINES: u32 = 1_000_000;

// The kind of a clock reading. The kinds below it set a pin to a level.
const READING: u8 = 5;

// The line in hand. Its fields stay numbers: `fits` looks at every line in hand, also at one outside the ranges, and a
// narrower type would ask more of its callers.
#[derive(Clone, Copy)]
pub struct Line {
    // lines that are whole, 0 to 1,000,000
    pub whole: u32,
    // 0 at its start, 1 after the name, 2 after the tab, 3 after a value that takes no more digits, 4 in a reading, 5
    // after the bad line
    pub place: u8,
    // the kind of event that the name gives, 0 to 5
    pub kind: u8,
    // the level, or the reading as far as it is in
    pub value: u32,
}
