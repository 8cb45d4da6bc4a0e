// How a wait polls.
ghost use Rattle.std.specs.Prelude.{◌≤◌};

// At an interval of microseconds, and at most so many times: once at least, and at most in every microsecond of the
// longest cycle of any part, and once more.
#[derive(Clone, Copy)]
pub(crate) struct Polls {
    pub(crate) interval: u32,
    pub(crate) limit: u32,
    ghost some: { 1 ≤ limit },
    ghost most: { limit ≤ 5001 },
}
