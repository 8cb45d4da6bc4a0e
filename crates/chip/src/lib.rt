// What both models of the three parts share: the record that each holds, its ranges, passing time,
// power-up, and what waits for the end of a cycle.
//
// Public calls, each for every input: power_up, in_ranges, protected_from, protection, cells_touched, clock_reading.
// Every other public function is an inner call of the models: total, and exactly its definition.
//
// Memory and identification page are two parameters of every call that is lent both, here and above, as C hands them
// over. A struct of the two slices reads worse: each contract would have to say besides that its references are still
// the caller's.
#![tactic(auto)]

use codes::Refusal;
use latch::Latch;

mod counted;
mod counting;
mod effects;
mod power;
mod protect;
mod ranges;
mod status;
mod time;
mod waits;

// Public calls, beside the methods of Core in_ranges, protected_from, protection and cells_touched.
pub use power::power_up;
pub use time::clock_reading;

// Inner calls.
pub use ranges::cycle_fits;
pub use time::{elapsed, left_after, lent_fits};

// What can wait for the end of the cycle: nothing, a status value or a page; of a part that has them also the
// identification page or the lock.
#[derive(Clone, Copy, PartialEq, Eq)]
pub enum Kind {
    Nothing,
    Status,
    Page,
    Identification,
    Lock,
}

// What waits. What does not wait reads 0. The kind is a number, since the record is C's too, and one that is no kind is
// outside the ranges.
#[repr(C)]
#[derive(Clone, Copy)]
pub struct Waiting {
    pub kind: u8,
    pub status: u8,
    pub page: u32,
    pub latch: Latch,
}

// The core record. All its fields are numbers: one record serves C too, and a flag of 2 is outside the ranges.
#[repr(C)]
#[derive(Clone, Copy)]
pub struct Core {
    // 0 the M95512, 1 the M95512-D, 2 the M95M01; a number, since C hands it over, and one that is none is refused by 2
    pub part: u8,
    // the identification page is locked for good; on the M95512 it is never looked at
    pub lock: u8,
    pub srwd: u8,
    pub bp1: u8,
    pub bp0: u8,
    pub wel: u8,
    pub cycle: u32,
    pub left: u32,
    pub last: u32,
    // how many cells of the memory hold FFh, as the calls count them; a wrong number changes no other answer
    pub blank: u32,
    pub waits: Waiting,
}

// What a call hands back with the record: power-up and a clock reading nothing else, a frame and a run of the driver
// more. The record stands beside the answer, since a refusal hands one back too (the clause `value` of each call).
#[derive(Clone, Copy)]
pub struct Answered<T, E> {
    pub answer: Result<T, E>,
    pub core: Core,
}
