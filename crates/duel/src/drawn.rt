// A frame drawn as single pin changes: D free between edges, any pin set to the level it has, both modes, pauses that
// begin and end with C low, C free in a pause and between frames. Clock readings come at byte boundaries, after the
// falling edge in mode 0 and before it in mode 3, and never in a pause.
use crate::cells::{Memory, Page};
use crate::chance::Chance;
use crate::compared::{bit_at, clock};
use crate::differing::Differing;
use crate::made::{Bytes, Frame};
use crate::run::{Run, count};
use crate::schedules::Schedule;
use codes::{Numbered, page_of, size_of};
use edges::Level;
use pins::{Device, Stepped};

#[derive(Clone, Copy, PartialEq, Eq)]
pub enum Pin {
    S,
    C,
    D,
    W,
    Hold,
}

impl Pin {
    fn any(chance: &mut Chance) -> Pin {
        match chance.below(5) {
            0 => Pin::S,
            1 => Pin::C,
            2 => Pin::D,
            3 => Pin::W,
            _ => Pin::Hold,
        }
    }
}

// The pin model: its device, over its memory and its identification page.
#[derive(Drop)]
pub struct PinSide {
    pub device: Device,
    pub memory: Memory,
    pub page: Page,
}

// A clock reading, with as many cells lent as the part has. No method: parts of two fields that stand behind a
// reference are not lent at once.
fn read_clock(device: Device, reading: u32, memory: &mut Memory, page: &mut Page) -> Stepped {
    let part = device.core.part;
    device.read_clock(
        reading,
        &mut memory[..size_of(part)],
        &mut page[..page_of(part)],
    )
}

impl PinSide {
    // C to a level, with as many cells lent as the part has.
    fn set_c(&self, high: bool) -> Stepped {
        let part = self.device.core.part;
        self.device.set_c(
            high,
            &self.memory[..size_of(part)],
            &self.page[..page_of(part)],
        )
    }

    // One pin change, which a device inside its ranges does not refuse.
    pub fn set(&mut self, pin: Pin, high: bool, run: &mut Run) {
        let stepped = match pin {
            Pin::S => self.device.set_s(high),
            Pin::C => self.set_c(high),
            Pin::D => self.device.set_d(high),
            Pin::W => self.device.set_w(high),
            Pin::Hold => self.device.set_hold(high),
        };
        run.same(Differing::Change, 0u32, stepped.outcome.number());
        count(&mut run.counts.changes);
        self.device = stepped.device;
    }

    // A clock reading, which a device inside its ranges does not refuse.
    pub fn read(&mut self, reading: u32, run: &mut Run) {
        let PinSide {
            device,
            memory,
            page,
        } = self;
        let stepped = read_clock(*device, reading, memory, page);
        run.same(Differing::Reading, 0u32, stepped.outcome.number());
        self.device = stepped.device;
    }

    fn level(&self, pin: Pin) -> bool {
        let pins = self.device.pins;
        let level = match pin {
            Pin::S => pins.s,
            Pin::C => pins.c,
            Pin::D => pins.d,
            Pin::W => pins.w,
            Pin::Hold => pins.hold,
        };
        level == 1
    }

    // A pin set to the level it has, or D, and C where it is free, to any.
    fn move_one(&mut self, free: bool, run: &mut Run) {
        let pin = Pin::any(&mut run.chance);
        let any = run.chance.percent(50);
        let high = if pin == Pin::D || free && pin == Pin::C {
            any
        } else {
            self.level(pin)
        };
        self.set(pin, high, run);
    }

    fn move_some(&mut self, free: bool, moves: u64, run: &mut Run) {
        for _ in 0..moves {
            self.move_one(free, run);
        }
    }

    // Here and there, up to five moves.
    fn stray(&mut self, free: bool, run: &mut Run) {
        if run.strays() {
            let moves = run.chance.below(6);
            self.move_some(free, moves, run);
        }
    }

    // Up to eight moves in Hold, C and D free.
    fn move_in_hold(&mut self, run: &mut Run) {
        let moves = run.chance.below(9);
        self.move_some(true, moves, run);
    }

    // Here and there, a pause.
    fn pause(&mut self, run: &mut Run) {
        if run.strays() {
            count(&mut run.counts.pauses);
            self.set(Pin::Hold, false, run);
            self.move_in_hold(run);
            self.set(Pin::C, false, run);
            self.set(Pin::Hold, true, run);
        }
    }

    // The readings that come after k bits.
    fn read_due(&mut self, k: usize, schedule: &Schedule, run: &mut Run) {
        for moment in schedule.moments[..schedule.number].iter() {
            if moment.is_due(k) {
                self.read(moment.reading, run);
            }
        }
    }

    // C low, with room for a pause.
    fn fall(&mut self, run: &mut Run) {
        self.set(Pin::C, false, run);
        self.stray(false, run);
        self.pause(run);
    }

    // Bit k, with the bit that the frame model has there. The falling edge before it stands after the readings of
    // mode 3 and before those of mode 0. Q is compared just before C rises.
    fn draw_bit(&mut self, k: usize, sent: bool, shown: bool, schedule: &Schedule, run: &mut Run) {
        if schedule.mode3 {
            self.read_due(k, schedule, run);
        }
        self.fall(run);
        if !schedule.mode3 {
            self.read_due(k, schedule, run);
        }
        self.set(Pin::D, sent, run);
        clock(self.device.q().unwrap_or(Level::Zero), shown, k, run);
        self.set(Pin::C, true, run);
        self.stray(false, run);
    }

    // C free between frames, then at the mode's rest, and S low.
    fn select(&mut self, mode3: bool, run: &mut Run) {
        self.stray(true, run);
        self.set(Pin::C, mode3, run);
        self.set(Pin::S, false, run);
    }

    // After the last bit: C at the mode's rest, the readings there, and S high. In mode 0 there is room for a last
    // pause.
    fn deselect(&mut self, bits: usize, schedule: &Schedule, run: &mut Run) {
        if schedule.mode3 {
            self.read_due(bits, schedule, run);
        } else {
            self.set(Pin::C, false, run);
            self.read_due(bits, schedule, run);
            self.pause(run);
        }
        self.set(Pin::S, true, run);
    }

    // In Hold, with C and D free in it; HOLD is high again afterwards.
    fn deselect_in_hold(&mut self, run: &mut Run) {
        self.set(Pin::C, false, run);
        self.set(Pin::Hold, false, run);
        self.move_in_hold(run);
        self.set(Pin::S, true, run);
        self.set(Pin::Hold, true, run);
    }

    // The whole frame, from a device that is not selected to one that is not selected.
    pub fn draw(&mut self, frame: &Frame, out: &Bytes, run: &mut Run) {
        let Frame {
            bytes,
            bits,
            schedule,
        } = *frame;
        self.select(schedule.mode3, run);
        for k in 0..bits {
            self.draw_bit(k, bit_at(bytes, k), bit_at(out, k), &schedule, run);
        }
        if schedule.held {
            self.deselect_in_hold(run);
        } else {
            self.deselect(bits, &schedule, run);
        }
    }
}
