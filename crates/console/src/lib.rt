// What the programs share: lines of words and numbers into any writer, messages on standard error, the words that a
// program was started with, and names of files.
//
// Every function is for every input; none has a `requires`. The two that write name the bytes that an Ok has written.
#![tactic(auto)]

mod arguments;
mod lines;
mod messages;
mod names;
#[cfg(test)]
mod tests;

pub use arguments::{WORD, count, is_word, word, zeros};
pub use lines::{put_number, say};
pub use messages::{Tell, fail};
pub use names::{file_name, open};
