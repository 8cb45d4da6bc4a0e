// How a frame is drawn, by chance: the mode, a deselect in Hold, and clock readings inside the frame at byte positions
// (document 02, Item 12). Also how far the clock goes between two readings.
ghost use Rattle.std.specs.Prelude.{◌≤◌};

use crate::chance::Chance;
use crate::compared::bit_at;
use crate::run::{Run, count};
use chip::Core;

// The most readings that come inside a frame.
pub const MANY: usize = 4;

// A position and its reading, and what is then left of the cycle.
#[derive(Clone, Copy)]
pub struct Moment {
    pub at: usize,
    pub reading: u32,
    left: u32,
}

impl Moment {
    // It comes after k bits.
    pub fn is_due(&self, k: usize) -> bool {
        k % 8 == 0 && self.at == k / 8
    }
}

// The mode of a frame, whether it is deselected in Hold, and the readings inside it: the first so many moments, of
// which no position falls.
#[derive(Clone, Copy)]
pub struct Schedule {
    pub mode3: bool,
    pub held: bool,
    pub number: usize,
    pub moments: [Moment; MANY],
    ghost few: { number ≤ 4 },
}

// How far the clock goes: a part of a cycle, to the end of the one that runs or half of the way, a whole one, one
// reading back, or anywhere.
pub fn passing(cycle: u32, left: u32, chance: &mut Chance) -> u32 {
    let r = chance.below(100);
    let any = chance.word();
    match r {
        0..=44 => any % (cycle / 2 + 1),
        45..=74 => left,
        75..=82 => left / 2,
        83..=91 => cycle,
        92..=95 => u32::MAX,
        _ => any,
    }
}

// The next position: the same again, the last boundary, or any from the one up to the other.
fn position(at: usize, most: usize, chance: &mut Chance) -> usize
    requires { at ≤ most }
    ensures { result ≤ most }
{
    let between = chance.below((most - at) as u64) as usize;
    match chance.below(6) {
        0 => at,
        1 => most,
        _ => at + between,
    }
}

// Reading i, by its place and by the counter.
fn count_reading(i: usize, from: Moment, to: Moment, most: usize, run: &mut Run) {
    count(&mut run.inside.readings);
    if to.at == 0 {
        count(&mut run.inside.at_start);
    }
    if to.at == most {
        count(&mut run.inside.at_end);
    }
    if i > 0 && to.at == from.at {
        count(&mut run.inside.at_same);
    }
    if to.reading < from.reading {
        count(&mut run.inside.round);
    }
}

// The moment of reading i.
fn later(i: usize, from: Moment, cycle: u32, most: usize, run: &mut Run) -> Moment
    requires { from.at ≤ most }
    ensures { result.at ≤ most }
{
    let gone = passing(cycle, from.left, &mut run.chance);
    let to = Moment {
        at: position(from.at, most, &mut run.chance),
        reading: from.reading.wrapping_add(gone),
        left: from.left.saturating_sub(gone),
    };
    count_reading(i, from, to, most, run);
    to
}

// How many: mostly none, where a cycle runs often some. A frame that is deselected in Hold has none: the frame model
// knows no Hold, and does not say what readings leave of a frame that is dropped.
fn how_many(running: bool, held: bool, chance: &mut Chance) -> usize
    ensures { result ≤ 4 }
{
    let some = chance.percent(if running { 50 } else { 25 });
    if held || !some {
        return 0;
    }
    1 + chance.below(4) as usize
}

// For a frame of so many bits, from the record before it.
pub fn scheduled(before: Core, bits: usize, held: bool, run: &mut Run) -> Schedule {
    let mode3 = run.chance.percent(50);
    let number = how_many(before.left > 0, held, &mut run.chance);
    let most = bits / 8;
    let mut moment = Moment {
        at: 0,
        reading: before.last,
        left: before.left,
    };
    let mut moments = [moment; MANY];
    for (i, next) in moments[..number].iter_mut().enumerate() {
        moment = later(i, moment, before.cycle, most, run);
        *next = moment;
    }
    Schedule {
        mode3,
        held,
        number,
        moments,
    }
}

// WIP is 1 in the first status byte and 0 in the last whole one.
pub fn falls(out: &[u8], bits: usize) -> bool {
    let last = bits - bits % 8;
    last >= 24 && bit_at(out, 15) && !bit_at(out, last - 1)
}

// A frame with readings inside, whether it met a cycle's end, and whether it is a poll that saw WIP fall: one that sits
// on RDSR while the cycle ends.
pub fn count_inside(schedule: &Schedule, ended: bool, saw: bool, run: &mut Run) {
    if schedule.number == 0 {
        return;
    }
    count(&mut run.inside.frames);
    if ended {
        count(&mut run.inside.ended);
    }
    if saw {
        count(&mut run.inside.falls);
    }
    if saw && schedule.mode3 {
        count(&mut run.inside.falls_3);
    }
}
