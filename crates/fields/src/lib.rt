// The bytes of a frame: the code, the address, the data, and the page write that latches the data of a WRITE or an 82h.
//
// Every public function is an inner call of the models: total, and exactly its definition.
#![tactic(auto)]

mod counts;
mod fields;
mod runs;

pub use counts::{bits_fit, length_fits};
pub use fields::{address_of, byte_at, instruction_of, latch_of, latch_part};
pub use runs::{at_most, fill};
