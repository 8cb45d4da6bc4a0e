// The words that a program was started with, as bytes, and room for bytes.
ghost use Rattle.std.specs.Prelude.{◌≡◌, ◌≤◌, IsTrue, length, replicate};

use std::env::{Env, FillError};

// Room of zeros, of the size that is asked for.
pub fn zeros<const N: usize>() -> [u8; N]
    ensures len { N ≡ length result }
    ensures zeros { result ≡ replicate N 0 }
{
    [0; N]
}

// Room for a word.
pub const WORD: usize = 4096;

// Puts the word at a place at the start of room, and answers its length: 0 where there is none, or room is too small.
pub fn word(rt: &impl Env, at: usize, room: &mut [u8]) -> usize
    ensures { result ≤ length room.new }
{
    // 0 and no Option: to a program a word that is not there is an empty one.
    rt.arg(at, room).unwrap_or(0)
}

// The word at a place is that one. One of over 4,096 bytes counts as empty, and so does one that is not there.
pub fn is_word(rt: &impl Env, at: usize, what: &[u8]) -> bool
    ensures { IsTrue result → length what.now ≤ 4096 }
{
    let mut room = zeros::<WORD>();
    let n = word(rt, at, &mut room);
    &room[..n] == what
}

// How many words there are, the program's own name among them.
pub fn count(rt: &impl Env) -> usize {
    let mut room = [0u8; 1];
    for at in 0..usize::MAX {
        if let Err(FillError::NotPresent) = rt.arg(at, &mut room) {
            return at;
        }
    }
    usize::MAX
}
