// A supply cut and the power's return: what waits is cut down to what the bench chose, and then its cycle is over.
//
// Public call, for every input: cut. cut_core is an inner call of both models: total, and exactly its definition.
#![tactic(auto)]

use latch::WORDS;

mod cutting;
mod down;

// Public call.
pub use cutting::cut;

// Inner call.
pub use cutting::cut_core;

// What of that which waits had been taken when the supply fell, a mark for each: mark i, bit i % 64 of word i / 64, is
// for cell i of a page and for bit i of a status value, mark 0 for the lock. What does not wait is not looked at.
#[repr(C)]
#[derive(Clone, Copy)]
pub struct Choice {
    pub words: [u64; WORDS],
}
