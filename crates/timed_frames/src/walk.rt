// A walk through the lists: the readings before a position come, in their order.
ghost use Rattle.std.specs.Prelude.{◌≡◌, ◌+◌, ◌≤◌, length, drop, take};
ghost use Rattle.chip.specs.Records.{own_part};
ghost use Rattle.frames.specs.Play.{frame_bench};
ghost use Rattle.timed_frames.specs.Schedules.{due, passed, places_fit, rising};

use chip::Core;

// Which clock reading comes at which byte position, as many of one as of the other. Two lists, as C hands them over.
#[derive(Clone, Copy)]
pub(crate) struct Schedule<'a> {
    pub(crate) positions: &'a [usize],
    pub(crate) readings: &'a [u32],
    ghost same: { length positions.now ≡ length readings.now },
}

impl<'a> Schedule<'a> {
    // What is left of it once so many readings came.
    pub(crate) fn after(self, came: usize) -> Schedule<'a>
        requires { came ≤ length self.positions.now }
        ensures positions_left { result.positions.now ≡ drop came self.entry.positions.now }
        ensures readings_left { result.readings.now ≡ drop came self.entry.readings.now }
    {
        Schedule {
            positions: &self.positions[came..],
            readings: &self.readings[came..],
        }
    }
}

// The record after the readings that came, and how many came.
#[derive(Clone, Copy)]
pub(crate) struct Walk {
    pub(crate) core: Core,
    pub(crate) next: usize,
}

// No position falls, and none passes the whole bytes.
#[tactic(auto, using(crate::proofs::Walks::rising_step, crate::proofs::Walks::rising_none))]
fn rise(most: usize, positions: &[usize]) -> bool
    ensures { result ≡ rising 0 most positions.now }
{
    let mut low = 0;
    for place in positions {
        if *place < low || most < *place {
            return false;
        }
        low = *place;
    }
    true
}

// As many positions as readings, and none that falls or passes the frame's whole bytes.
pub(crate) fn places_fit(bits: usize, positions: &[usize], readings: &[u32]) -> bool
    ensures { result ≡ places_fit bits positions.now readings.now }
{
    (positions.len() == readings.len()) & rise(bits / 8, positions)
}

impl Walk {
    // On to position k: the readings before it that have not come.
    pub(crate) fn to(
        self,
        k: usize,
        schedule: Schedule,
        memory: &mut [u8],
        identification: &mut [u8],
    ) -> Walk
        requires next_in_bounds { self.next ≤ length schedule.positions.now }
        ensures next_value { result.next ≡ self.next + due k (drop self.next schedule.entry.positions.now) }
        ensures identification_after { frame_bench result.core memory.new identification.new
            ≡ passed (own_part self.core) (take (due k (drop self.next schedule.entry.positions.now))
            (drop self.next schedule.entry.readings.now))
            (frame_bench self.core memory.old identification.old) }
    {
        let mut core = self.core;
        let mut next = self.next;
        // Stays a while: the next walk goes on where this one stopped.
        while next < schedule.positions.len() && schedule.positions[next] < k {
            core = core.timed(schedule.readings[next], memory, identification);
            next += 1;
        }
        Walk { core, next }
    }
}
