// What stands on Q over a frame: the output bytes, and how many leading bits are undriven.
//
// Both public functions are inner calls of the models: total, and exactly their definitions.
#![tactic(auto)]

mod leading;
mod output;

pub use leading::undriven;
pub use output::show;
