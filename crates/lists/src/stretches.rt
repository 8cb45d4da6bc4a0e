// Stretches of events that stay within a byte: D moves, and an edge of C takes a bit or shows one, or moves C alone.
// Nearly all events are such. The loop here moves six numbers and is short, so that a compiler holds them in registers;
// an event that moves anything else is left to `ways`.
// Whether edges count and whether Q moves go beside the front, and are said in each contract: they hold for the whole
// stretch, and are asked once, before it.
ghost use Rattle.std.specs.Prelude.{◌≡◌, List, false, ℕ, ◌≤◌, length};
ghost use Rattle.codes.specs.Part.{Part, part_of};
ghost use Rattle.latch.specs.declared.Latch.{Latch};
ghost use Rattle.chip.specs.declared.Core.{Core};
ghost use Rattle.chip.specs.Lents.{Lent};
ghost use Rattle.pins.specs.Events.{on_c};
ghost use Rattle.pins.specs.Answers.{pin_bench, after_event};
ghost use Rattle.lists.specs.Ways.{whole};
ghost use Rattle.lists.specs.Stretches.{Steady, counted, moving, is_other, after_move, Shows, Leads};

use crate::{Front, Move, Stretch};
use edges::{bit, outputs, shifted_in};

// ---- one event

impl Front {
    // Whether Q moves at a falling edge: at a counted one in data output.
    fn moves_q(self, part: u8, counts: bool) -> bool
        requires { counted self ≡ counts }
        ensures { result ≡ moving (part_of part) self }
    {
        counts
            && outputs(
                part,
                codes::decode(part, self.code),
                self.taken,
                self.ran == 1,
            )
    }

    // An edge of C. Where it counts, a bit is taken, unless it is the eighth; where Q moves, the next bit is shown,
    // unless there is none. Else C moves alone.
    fn edge(self, level: bool, counts: bool, moves: bool) -> Move
        requires steady { Steady self }
        requires self_value { counted self ≡ counts }
        ensures { (P : Part) (m : Lent) (l : Latch) (k : Core) → moving P self ≡ moves → is_other result ≡ false
            → after_move result (whole self l k) ≡ on_c P level m (whole self l k) }
    {
        if self.c == bit(level) {
            return Move::Other;
        }
        if level {
            let bits = self.bits;
            let partial = self.partial;
            if counts {
                if bits < 7 {
                    let byte = shifted_in(partial, self.d);
                    let more = bits + 1;
                    return Move::Bit {
                        bits: more,
                        partial: byte,
                    };
                }
                return Move::Other;
            }
            return Move::Bit { bits, partial };
        }
        let shown = self.shown;
        if moves {
            if (1 <= shown) & (shown < 8) {
                let next = shown + 1;
                return Move::Shown(next);
            }
            return Move::Other;
        }
        Move::Shown(shown)
    }

    // What a number's event moves within a byte. Asked are the two kinds alone that a stretch has.
    fn move_for(self, number: u64, counts: bool, moves: bool) -> Move
        requires steady { Steady self }
        requires self_value { counted self ≡ counts }
        ensures { (P : Part) (l : Latch) (k : Core) (m d : List ℕ) → moving P self ≡ moves → is_other result ≡ false
            → pin_bench (after_move result (whole self l k)) m d ≡ after_event P number (pin_bench (whole self l k) m d) }
    {
        let kind = number / 4294967296;
        let level = number % 2 == 1;
        if kind == 2 {
            return Move::Data(bit(level));
        }
        if kind == 1 {
            return self.edge(level, counts, moves);
        }
        Move::Other
    }
}

// ---- a stretch

// The events from `start` on, up to the first that moves something else, and Q after each. The level is what Q shows.
fn stretch(
    from: Front,
    counts: bool,
    moves: bool,
    level: u8,
    start: usize,
    events: &[u64],
    out: &mut [u8],
) -> Stretch
    requires steady { Steady from }
    requires from_value { counted from ≡ counts }
    requires start_in_bounds { (start ≤ length events.now) × (length out.old ≡ length events.now) }
    requires shows { Shows from level }
    ensures start_le_i { (start ≤ result.i) × (result.i ≤ length events.now) }
    ensures shows_2 { Shows result.front result.q }
    ensures leads { (P : Part) → moving P from ≡ moves
        → Leads P events.now start from out.old result.i result.front out.new }
{
    let mut front = from;
    let mut q = level;
    let mut i = start;
    // Stays a loop by index: the index at which it ends is handed back.
    while i < events.len() {
        let moved = front.move_for(events[i], counts, moves);
        match moved {
            Move::Data(d) => {
                front.d = d;
            }
            Move::Bit { bits, partial } => {
                front.c = 1;
                front.bits = bits;
                front.partial = partial;
            }
            Move::Shown(shown) => {
                front.c = 0;
                front.shown = shown;
                q = front.q();
            }
            Move::Other => {
                return Stretch { front, q, i };
            }
        }
        out[i] = q;
        i += 1;
    }
    Stretch { front, q, i }
}

// The stretch from `start` on. There is none where a falling edge would begin or end a pause.
pub(crate) fn stretch_on(
    front: Front,
    part: u8,
    level: u8,
    start: usize,
    events: &[u64],
    out: &mut [u8],
) -> Stretch
    requires start_in_bounds { (start ≤ length events.now) × (length out.old ≡ length events.now) }
    requires shows { Shows front level }
    ensures start_le_i { (start ≤ result.i) × (result.i ≤ length events.now) }
    ensures shows_2 { Shows result.front result.q }
    ensures leads { Leads (part_of part) events.now start front out.old
        result.i result.front out.new }
{
    let held = bit((front.s != 1) & (front.hold != 1));
    if front.held == held {
        let counts = (front.s != 1) & (front.held != 1);
        let moves = front.moves_q(part, counts);
        return stretch(front, counts, moves, level, start, events, out);
    }
    Stretch {
        front,
        q: level,
        i: start,
    }
}
