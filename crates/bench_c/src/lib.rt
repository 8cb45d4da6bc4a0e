// Both models, supply cuts, the driver, the split, laying and HEX texts for C programs, as an archive: each export is
// the call of that name of the crate bench, with its clauses. bench/cartvesper.h documents each.
#![tactic(auto)]

mod core_calls;
mod cut_calls;
mod device_calls;
mod driver_call;
mod frame_call;
mod hex_calls;
mod lay_call;
mod part_calls;
mod timed_call;
