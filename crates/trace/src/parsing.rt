// A run of bytes, read into the events of the lines that end in it.
ghost use Rattle.std.specs.Prelude.{◌≡◌, true, ◌&&◌, ◌+◌, ◌<◌, ◌≤◌, length, take, eqb, ltb};
ghost use Rattle.lines.specs.Reading.{read, found};
ghost use Rattle.trace.specs.Takes.{Takes};

use lines::{Line, level_event, level_kind};

// The line in hand after the run, and how many lines ended in it.
#[derive(Clone, Copy)]
pub(crate) struct Parsed {
    pub(crate) line: Line,
    pub(crate) count: usize,
}

// What is taken at once: a byte, or a whole line. How many bytes these are; the line in hand after them; how many
// lines end in them, one or none, and its event.
// Stays a count with an event beside it, and no Option: the definition `Takes` and `closing` give it so.
#[derive(Clone, Copy)]
struct Taken {
    bytes: usize,
    line: Line,
    lines: usize,
    event: u64,
}

fn byte_taken(hand: Line, text: &[u8], i: usize) -> Taken
    requires { i < length text.now }
    ensures { Takes hand text.now i result.bytes result.line result.lines result.event }
{
    let byte = text[i];
    Taken {
        bytes: 1,
        line: hand.next(byte),
        lines: hand.closing(byte),
        event: hand.event(),
    }
}

// Four bytes that are a line of a level, else one byte.
fn four_taken(hand: Line, text: &[u8], i: usize) -> Taken
    requires { (i + 4 ≤ length text.now) × ((eqb hand.place 0 && ltb hand.whole 1000000) ≡ true) }
    ensures { Takes hand text.now i result.bytes result.line result.lines result.event }
{
    let level = text[i + 2];
    let Some(kind) = level_kind(text[i], text[i + 1], level, text[i + 3]) else {
        return byte_taken(hand, text, i);
    };
    Taken {
        bytes: 4,
        line: hand.past_line(),
        lines: 1,
        event: level_event(kind, level),
    }
}

// What is taken at an index.
fn taken_at(hand: Line, text: &[u8], i: usize) -> Taken
    requires { i < length text.now }
    ensures { Takes hand text.now i result.bytes result.line result.lines result.event }
{
    if 4 <= text.len() - i && hand.is_fresh() {
        return four_taken(hand, text, i);
    }
    byte_taken(hand, text, i)
}

// The bytes of a text one after another; the events of the lines that end in it stand at the start of `events`, which
// has room for one a byte.
// Stays a loop by an index: a step takes one byte or four, which no iterator over the bytes does.
#[tactic(auto, unfolding(lines::specs::Reading::read, lines::specs::Reading::found))]
pub(crate) fn parse(line: Line, text: &[u8], events: &mut [u64]) -> Parsed
    requires { length text.now ≤ length events.old }
    ensures line_value { result.line ≡ read line text.now }
    ensures events_after { take result.count events.new ≡ found line text.now }
    ensures count_value { result.count ≡ length (found line text.now) }
    ensures count_in_bounds { result.count ≤ length text.now }
{
    let mut hand = line;
    let mut count: usize = 0;
    let mut i: usize = 0;
    while i < text.len() {
        let taken = taken_at(hand, text, i);
        events[count] = taken.event;
        count += taken.lines;
        hand = taken.line;
        i += taken.bytes;
    }
    Parsed { line: hand, count }
}
