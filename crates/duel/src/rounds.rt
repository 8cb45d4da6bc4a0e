// A round's acts: each is made on both models, and then they are compared.
use crate::cells::{Memory, Page, blanks, count_changed, filled, filled_page};
use crate::chance::Chance;
use crate::compared::{padding, records};
use crate::differing::Differing;
use crate::drawn::{Pin, PinSide};
use crate::held::{count_held, left_by};
use crate::identified::count_identified;
use crate::made;
use crate::made::{Bytes, Frame, Head, bits_in_hold, compose, whole_page};
use crate::run::{Run, count};
use crate::schedules::{Schedule, count_inside, falls, passing, scheduled};
use chip::{Answered, Core, Kind};
use codes::{
    M95M01, M95512, M95512D, Numbered, RDSR, Refusal, WRITE, longest_of, page_of, size_of,
};
use timed_frames::{Mode, timed_frame};

// The frame model: its record, over its memory and its identification page.
#[derive(Drop)]
struct FrameSide {
    core: Core,
    memory: Memory,
    page: Page,
}

// Both models, the frame model with its level of W.
#[derive(Drop)]
pub struct Pair {
    frames: FrameSide,
    w: bool,
    pins: PinSide,
}

// What comes next.
#[derive(Clone, Copy)]
enum Act {
    Reading,
    Level,
    Frame,
}

// ---- the start

// A cycle length: any, often the shortest or the longest.
fn cycle(part: u8, chance: &mut Chance) -> u32 {
    let r = chance.below(10);
    let longest = longest_of(part);
    let any = 1 + chance.below(u64::from(longest));
    match r {
        0 => 1,
        1 => longest,
        _ => any as u32,
    }
}

// One of the three parts.
fn part(run: &mut Run) -> u8 {
    match run.chance.below(3) {
        0 => M95512,
        1 => {
            count(&mut run.counts.rounds_d);
            M95512D
        }
        _ => {
            count(&mut run.counts.rounds_m01);
            M95M01
        }
    }
}

// ---- the frame model

// A clock reading, with as many cells lent as the part has. No method: parts of two fields that stand behind a
// reference are not lent at once.
fn read_clock(
    core: Core,
    reading: u32,
    memory: &mut Memory,
    page: &mut Page,
) -> Answered<(), Refusal> {
    let part = core.part;
    chip::clock_reading(
        core,
        reading,
        &mut memory[..size_of(part)],
        &mut page[..page_of(part)],
    )
}

// The answer to so many bits of some bytes, with as many cells lent as the part has. A frame without readings is asked
// of the same call, as one with empty lists.
fn ask(
    core: Core,
    w: bool,
    memory: &mut Memory,
    page: &mut Page,
    frame: &Frame,
    out: &mut Bytes,
) -> Answered<usize, Refusal> {
    let Frame {
        bytes,
        bits,
        schedule,
    } = *frame;
    let mode = if schedule.mode3 {
        Mode::Three
    } else {
        Mode::Zero
    };
    let number = schedule.number;
    let positions = schedule.moments.map(|moment| moment.at);
    let readings = schedule.moments.map(|moment| moment.reading);
    let n = bits.div_ceil(8).min(bytes.len());
    timed_frame(
        core,
        &mut memory[..size_of(core.part)],
        &mut page[..page_of(core.part)],
        w,
        mode,
        &bytes[..n],
        bits,
        &positions[..number],
        &readings[..number],
        &mut out[..n],
    )
}

impl FrameSide {
    // A clock reading, which a record inside its ranges does not refuse.
    fn read(&mut self, reading: u32, run: &mut Run) {
        let FrameSide { core, memory, page } = self;
        let timed = read_clock(*core, reading, memory, page);
        run.same(Differing::Reading, timed.answer.number(), 0u32);
        self.core = timed.core;
    }

    // A frame with W high or low. It leaves what the pin model's must leave: of one deselected in Hold that is no WRITE
    // nothing.
    fn send(&mut self, w: bool, frame: &Frame, out: &mut Bytes) -> Answered<usize, Refusal> {
        let FrameSide { core, memory, page } = self;
        let before = *core;
        let asked = ask(before, w, memory, page, frame, out);
        let bytes = frame.bytes;
        let framed = left_by(asked, before, frame.schedule.held && bytes[0] != WRITE);
        self.core = framed.core;
        framed
    }
}

// ---- counts of frames

fn count_frame(part: u8, bits: usize, mode3: bool, run: &mut Run) {
    count(&mut run.counts.frames);
    if mode3 {
        count(&mut run.counts.mode_3);
    }
    if bits % 8 != 0 {
        count(&mut run.counts.partial);
    }
    if bits > whole_page(part) {
        count(&mut run.counts.long);
    }
}

// A cycle of a page; pages above FFFFh are the M95M01's.
fn count_page(part: u8, page: u32, run: &mut Run) {
    count(&mut run.counts.pages);
    if part == M95M01 && page >= 256 {
        count(&mut run.counts.upper);
    }
}

// In a cycle a frame begins none; WRDI may clear WEL while the cycle goes on.
fn count_in_cycle(before: Core, after: Core, run: &mut Run) {
    if before.wel != after.wel && after.left > 0 {
        count(&mut run.counts.cleared);
    }
}

// What a frame begins.
fn count_begun(before: Core, after: Core, run: &mut Run) {
    if before.left > 0 {
        return count_in_cycle(before, after, run);
    }
    let waits = after.waits;
    if waits.has(Kind::Status) {
        count(&mut run.counts.statuses);
    }
    if waits.has(Kind::Page) {
        count_page(after.part, waits.page, run);
    }
    if waits.has(Kind::Identification) {
        count(&mut run.counts.identified);
    }
    if waits.has(Kind::Lock) {
        count(&mut run.counts.locks);
    }
}

// A cycle ended: a frame in which one did begins none, since the end clears WEL.
fn ended(before: Core, after: Core) -> bool {
    before.left > 0 && after.left == 0
}

// A frame from a record, with so many leading bits undriven, and what it leaves.
fn count_sent(
    before: Core,
    after: Core,
    undriven: usize,
    schedule: &Schedule,
    head: Head,
    saw: bool,
    run: &mut Run,
) {
    count_begun(before, after, run);
    count_identified(before, head, undriven, run);
    count_inside(schedule, ended(before, after), saw, run);
    if schedule.held {
        count_held(before, after, head, run);
    }
}

// In how many of a hundred places pin changes stray: in half of the frames none.
fn liveliness(bits: usize, chance: &mut Chance) -> u64 {
    let r = chance.below(60);
    if bits > 1600 {
        return r % 3;
    }
    r.saturating_sub(30)
}

// ---- acts

// What comes next: a clock reading, every third time where a cycle runs; seldom a level of W; else a frame. Nothing
// after a difference.
fn next_act(running: bool, run: &mut Run) -> Option<Act> {
    if run.first.is_some() {
        return None;
    }
    count(&mut run.counts.acts);
    let r = run.chance.below(100);
    if r < 15 || running && r < 36 {
        return Some(Act::Reading);
    }
    if r < 95 {
        return Some(Act::Frame);
    }
    Some(Act::Level)
}

impl Pair {
    // Both powered up alike, over memories and identification pages filled alike.
    fn powered(patterned: bool, run: &mut Run) -> Pair {
        let part = part(run);
        let lock = run.chance.percent(20);
        let page = filled_page(run.chance.percent(75));
        let cycle = cycle(part, &mut run.chance);
        let srwd = run.chance.percent(30);
        let bp1 = run.chance.percent(20);
        let bp0 = run.chance.percent(30);
        let reading = run.chance.word();
        let memory = filled(patterned);
        let cells = &memory[..size_of(part)];
        let core = chip::power_up(part, lock, cycle, srwd, bp1, bp0, reading, cells).core;
        let device = pins::power_up(part, lock, cycle, srwd, bp1, bp0, reading, cells).device;
        records(core, device, run);
        Pair {
            frames: FrameSide { core, memory, page },
            w: true,
            pins: PinSide {
                device,
                memory,
                page,
            },
        }
    }

    // The whole memories and the whole identification pages, and the number of blank cells against a scan of the
    // memory.
    fn compare_cells(&self, run: &mut Run) {
        let core = self.frames.core;
        run.same_each(Differing::Cell, &self.frames.memory, &self.pins.memory);
        run.same_each(Differing::PageCell, &self.frames.page, &self.pins.page);
        let scanned = blanks(&self.frames.memory, size_of(core.part));
        run.same(Differing::Scanned, core.blank, scanned as u64);
    }

    // Where a cycle ended in an act, the cells are compared. Of the M95M01 WEL may be 0 by then.
    fn compare_ended(&self, before: Core, run: &mut Run) {
        if !ended(before, self.frames.core) {
            return;
        }
        count(&mut run.counts.ended);
        if before.wel == 0 {
            count(&mut run.counts.ended_no_wel);
        }
        self.compare_cells(run);
    }

    // A clock reading for both.
    fn read(&mut self, run: &mut Run) {
        let core = self.frames.core;
        let gone = passing(core.cycle, core.left, &mut run.chance);
        let reading = core.last.wrapping_add(gone);
        count(&mut run.counts.readings);
        self.frames.read(reading, run);
        self.pins.read(reading, run);
        records(self.frames.core, self.pins.device, run);
    }

    // A level of W for both.
    fn protect(&mut self, run: &mut Run) {
        let high = run.chance.percent(60);
        count(&mut run.counts.levels);
        self.pins.set(Pin::W, high, run);
        records(self.frames.core, self.pins.device, run);
        self.w = high;
    }

    // The pin model's frame, deselected in Hold or not, against the frame model's output and record.
    fn meet(&mut self, frame: &Frame, out: &Bytes, run: &mut Run) {
        let core = self.frames.core;
        run.lively = liveliness(frame.bits, &mut run.chance);
        count_frame(core.part, frame.bits, frame.schedule.mode3, run);
        padding(out, frame.bits, run);
        self.pins.draw(frame, out, run);
        records(core, self.pins.device, run);
    }

    // A random frame for both, one in eight deselected in Hold.
    fn send(&mut self, run: &mut Run) {
        let mut bytes = console::zeros::<65536>();
        let mut out = console::zeros::<65536>();
        let before = self.frames.core;
        let n = compose(before, &mut bytes, &mut run.chance);
        let held = run.chance.below(8) == 0;
        let bits = if held {
            bits_in_hold(before.part, n, &mut run.chance)
        } else {
            made::bits(n, &mut run.chance)
        };
        let schedule = scheduled(before, bits, held, run);
        let frame = Frame {
            bytes: &bytes,
            bits,
            schedule,
        };
        let framed = self.frames.send(self.w, &frame, &mut out);
        let undriven = framed.answer.unwrap_or(0);
        let head = Head::of(before.part, &bytes, bits);
        let saw = head.code == RDSR && falls(&out, bits);
        count_sent(before, framed.core, undriven, &schedule, head, saw, run);
        run.same(Differing::Frame, framed.answer.number(), 0u32);
        run.undriven = undriven;
        self.meet(&frame, &out, run);
    }

    // An act, and a comparison.
    fn act(&mut self, run: &mut Run) {
        let before = self.frames.core;
        match next_act(before.left > 0, run) {
            Some(Act::Reading) => self.read(run),
            Some(Act::Level) => self.protect(run),
            Some(Act::Frame) => self.send(run),
            None => {}
        }
        self.compare_ended(before, run);
    }
}

// A round: one start for both models, then acts one after another, then the whole memories and pages.
pub fn round(run: &mut Run) {
    count(&mut run.counts.rounds);
    let patterned = run.chance.percent(75);
    let mut pair = Pair::powered(patterned, run);
    for _ in 0..48 {
        pair.act(run);
    }
    pair.compare_cells(run);
    count_changed(&pair.frames.memory, patterned, run);
}
