// A wait: polls until WIP is 0, at most as many as its limit. A poll is RDSR with one status byte: it shows that of the
// record and leaves the record as it was (polled_status and poll_leaves of frames).
ghost use Rattle.std.specs.Prelude.{◌≡◌, ◌+◌, ◌≤◌};
ghost use Rattle.chip.specs.Records.{own_part};
ghost use Rattle.frames.specs.Play.{frame_bench};
ghost use Rattle.sequence.specs.Sequence.{polls_on, first_wait, page_wait};
ghost use Rattle.driver.specs.Told.{ToldFrom};

use crate::polls::Polls;
use chip::Core;

// What a wait saw last, the record after it, and the frames sent.
#[derive(Clone, Copy)]
pub(crate) struct Waited {
    pub(crate) status: u8,
    pub(crate) core: Core,
    pub(crate) frames: u32,
}

impl Waited {
    // Beside other frames.
    pub(crate) fn and_sent(mut self, more: u32) -> Waited
        requires { self.frames + more ≤ 6000 }
        ensures { result ≡ record { status = self.status; core = self.core; frames = self.frames + more } }
    {
        self.frames += more;
        self
    }
}

// Polls while WIP is 1 and some are left, each after moving the clock. One that finds the cycle still running moves two
// numbers; the one that ends it takes the record's own step.
// Stays a `while`: it ends by the polls or by the cycle, and a `for` over the polls would need a `break` for the other.
pub(crate) fn poll_on(
    start: Core,
    memory: &mut [u8],
    identification: &mut [u8],
    interval: u32,
    left: u32,
) -> Waited
    ensures { ToldFrom (own_part start) (polls_on (own_part start) interval left)
        (frame_bench start memory.old identification.old) result memory.new
        identification.new }
{
    let mut last = start.last;
    let mut rest = start.left;
    let mut polls: u32 = 0;
    while (polls < left) & (interval < rest) {
        last = last.wrapping_add(interval);
        rest -= interval;
        polls += 1;
    }
    let core = start.with_time(last, rest);
    if (polls < left) & (0 < rest) {
        let reading = last.wrapping_add(interval);
        let over = core.timed(reading, memory, identification);
        return Waited {
            status: over.status(),
            core: over,
            frames: polls + 1,
        };
    }
    Waited {
        status: core.status(),
        core,
        frames: polls,
    }
}

// The wait of a run's start: its first poll is made without moving the clock.
pub(crate) fn first_wait(
    core: Core,
    memory: &mut [u8],
    identification: &mut [u8],
    polls: Polls,
) -> Waited
    ensures { ToldFrom (own_part core) (first_wait (own_part core) polls.interval polls.limit)
        (frame_bench core memory.old identification.old) result memory.new
        identification.new }
{
    poll_on(
        core,
        memory,
        identification,
        polls.interval,
        polls.limit - 1,
    )
    .and_sent(1)
}

// The wait of a page: the clock is moved before its first poll too. That poll is made even where no cycle runs.
pub(crate) fn page_wait(
    core: Core,
    memory: &mut [u8],
    identification: &mut [u8],
    polls: Polls,
) -> Waited
    ensures { ToldFrom (own_part core) (page_wait (own_part core) polls.interval polls.limit)
        (frame_bench core memory.old identification.old) result memory.new
        identification.new }
{
    if core.running() {
        return poll_on(core, memory, identification, polls.interval, polls.limit);
    }
    let reading = core.last.wrapping_add(polls.interval);
    let next = core.with_time(reading, 0);
    Waited {
        status: next.status(),
        core: next,
        frames: 1,
    }
}
