// The trace text: what a whole text puts out, taken a chunk at a time. One line of it, a byte at a time, is `lines`;
// what writes the output is `printing`.
//
// Public calls, each for every input: feed, a chunk of the text; finish, its end; and player's start, memory,
// identification and in_ranges, whose player these take.
#![tactic(auto, unfolding(laws::specs::Pick::pick))]

ghost use Rattle.std.specs.Prelude.{◌≡◌};
ghost use Rattle.trace.specs.declared.FeedError.TheVariants.{Refused};
ghost use Rattle.trace.specs.Numbers.{feed_error_number};

use codes::{Numbered, Refusal};
use player::Player;

mod chunks;
mod parsing;
mod public;

pub use public::{feed, finish};

// Why nothing more of a text is played: it has had its bad line, or the call is refused.
#[derive(Clone, Copy, PartialEq, Eq)]
pub enum FeedError {
    BadLine,
    Refused(Refusal),
}

impl From<Refusal> for FeedError {
    ghost from_gives = { λ r e. e ≡ Refused r };

    fn from(refusal: Refusal) -> FeedError {
        FeedError::Refused(refusal)
    }
}

// Document 01's number: 11 from the bad line on, else the refusal's.
impl Numbered for FeedError {
    ghost number = { feed_error_number };

    fn number(self) -> u32 {
        match self {
            FeedError::BadLine => 11,
            FeedError::Refused(refusal) => refusal.number(),
        }
    }
}

// The answer, the player that follows, and how many bytes of the output were written.
// Stays a struct: a bad line and a refusal hand the player back too (clause value).
#[derive(Clone, Copy)]
pub struct Fed {
    pub answer: Result<(), FeedError>,
    pub player: Player,
    pub written: usize,
}
