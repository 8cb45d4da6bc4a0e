// The frame in hand of the pin model, by the edges of its clock: what a counted rising edge takes, what an unheld
// falling edge shows, and the ranges of its fields. Its calls are inner ones, each total; the public ones, with their
// refusals, are those of pins and lists.
#![tactic(auto)]

use latch::Latch;

mod falling;
mod places;
mod ranges;
mod records;
mod rising;

pub use falling::{cell, level_of, one_up, outputs};
pub use records::{bit, one_more};
pub use rising::{address_with, next_address, shifted_in};

// The frame in hand. Fields that it has not reached are 0. All its fields are numbers, since the record is C's too.
#[repr(C)]
#[derive(Clone, Copy)]
pub struct Frame {
    // whole bytes taken, staying at 5, or at 6 of an M95M01
    pub taken: u8,
    // bits taken of the current byte, 0 to 7, and their values
    pub bits: u8,
    pub partial: u8,
    // the instruction byte, and whether a cycle ran at the eighth edge
    pub code: u8,
    pub ran: u8,
    // the WRSR data byte, or the lock's
    pub value: u8,
    // the output byte and its bits shown, 0 to 8
    pub out: u8,
    pub shown: u8,
    // as taken, then the cell of the next data byte to read or latch
    pub address: u32,
    pub latch: Latch,
}

// What Q shows.
#[derive(Clone, Copy, PartialEq, Eq)]
pub enum Level {
    Zero = 0,
    One = 1,
    Z = 2,
}
