// Printing into lent bytes: bytes as they are, a number, and the lines of a trace's output.
//
// Public calls, each for every input: put_bytes, put_decimal, put_header, put_bad, print. Each writes from an index on
// and hands back the index after what it wrote. Where the lent bytes have not as many from there on as it asks for, it
// writes nothing and hands back the index itself.
#![tactic(auto)]

mod digits;
mod output;
mod put;

pub use digits::put_decimal;
pub use output::{print, put_bad, put_header};
pub use put::put_bytes;
