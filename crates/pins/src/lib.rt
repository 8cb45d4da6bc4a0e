// The pin model of the three parts: one pin change or clock reading at a time.
//
// Public calls, each for every input: power_up; the methods of Device set_s, set_c, set_d, set_w, set_hold and
// read_clock, one for each kind of event; cut, a supply cut; q and status, what the device shows; cells_touched and
// in_ranges.
#![tactic(auto)]

use chip::Core;
use codes::Refusal;
use edges::Frame;

mod cut;
mod events;
mod public;
mod ranges;
mod records;

pub use public::power_up;

// The levels of the five pins, 1 for high.
#[repr(C)]
#[derive(Clone, Copy)]
pub struct Pins {
    pub s: u8,
    pub c: u8,
    pub d: u8,
    pub w: u8,
    pub hold: u8,
}

// The device. All its fields are numbers, as in the core record.
#[repr(C)]
#[derive(Clone, Copy)]
pub struct Device {
    pub pins: Pins,
    pub held: u8,
    pub frame: Frame,
    pub core: Core,
}

// An event sets one pin or gives a clock reading.
#[derive(Clone, Copy)]
pub enum Event {
    S(bool),
    C(bool),
    D(bool),
    W(bool),
    Hold(bool),
    Time(u32),
}

// What an event or power-up hands back, and a list of events (crate lists). The device stands beside the outcome, since
// a refusal hands one back too (the clause `value` of each call).
#[derive(Clone, Copy)]
pub struct Stepped {
    pub outcome: Result<(), Refusal>,
    pub device: Device,
}
