// Passing time: a clock reading, and the end of a cycle.
ghost use Rattle.laws.specs.Pick.{pick};
ghost use Rattle.codes.specs.declared.Refusal.TheVariants.{RecordRange};
ghost use Rattle.std.specs.Prelude.{◌≡◌, ◌-◌, ◌&&◌, nat_le, Err, Ok};
ghost use Rattle.codes.specs.Part.{part_of};
ghost use Rattle.chip.specs.Records.{own_part, running, nothing, waits_identification};
ghost use Rattle.chip.specs.Records.{with_status, with_lock, with_time, with_blank, without_cycle};
ghost use Rattle.codes.specs.Refusals.{number, no_refusal};
ghost use Rattle.chip.specs.Ranges.{in_ranges};
ghost use Rattle.chip.specs.Time.{admitted, elapsed, ended, ended_cells, timed_in, lent_fits};
ghost use Rattle.chip.specs.Time.{timed_memory, timed_identification};
ghost use Rattle.chip.specs.Time.{reading_number, clock_reading, clock_memory, clock_identification};

use crate::{Answered, Core, Kind, Waiting};
use codes::{Refusal, bp0_of, bp1_of, page_of, size_of, srwd_of};

// Readings come from a free-running 32-bit microsecond counter that wraps.
pub fn elapsed(old: u32, new: u32) -> u32
    ensures { result ≡ elapsed old new }
{
    new.wrapping_sub(old)
}

impl Core {
    fn with_status(mut self, value: u8) -> Core
        ensures { result ≡ with_status value self }
    {
        self.srwd = srwd_of(value);
        self.bp1 = bp1_of(value);
        self.bp0 = bp0_of(value);
        self
    }

    fn with_lock(mut self) -> Core
        ensures { result ≡ with_lock self }
    {
        self.lock = 1;
        self
    }

    // The clock read, and so much of the cycle left.
    pub fn with_time(mut self, reading: u32, left: u32) -> Core
        ensures { result ≡ with_time reading left self }
    {
        self.last = reading;
        self.left = left;
        self
    }

    pub(crate) fn with_blank(mut self, blank: u32) -> Core
        ensures { result ≡ with_blank blank self }
    {
        self.blank = blank;
        self
    }

    // The cycle is over: WEL 0, no time left, nothing waits.
    pub fn without_cycle(mut self) -> Core
        ensures { result ≡ without_cycle self }
    {
        self.wel = 0;
        self.left = 0;
        self.waits = Waiting::nothing();
        self
    }

    // Time left reaches 0 in the time that has passed.
    pub fn ends(self, passed: u32) -> bool
        ensures { result ≡ (running self && nat_le self.left passed) }
    {
        (0 < self.left) & (self.left <= passed)
    }

    // The record once its cycle is over: a waiting status value or lock shows now.
    fn ended(self) -> Core
        ensures { result ≡ ended self }
    {
        let kind = self.waits.kind;
        if kind == Kind::Status as u8 {
            return self.with_status(self.waits.status).without_cycle();
        }
        if kind == Kind::Lock as u8 {
            return self.with_lock().without_cycle();
        }
        self.without_cycle()
    }

    // The end of an identification cycle: the latched bytes go into the page. Where none waits nothing moves.
    fn store_identification(self, identification: &mut [u8])
        ensures { identification.new
            ≡ ended_cells waits_identification (own_part self) self identification.old }
    {
        let page = self.waits.page;
        let latch = self.waits.latch;
        if self.waits.kind == Kind::Identification as u8 {
            latch.store(self.part, page, identification);
        }
    }

    // A clock reading, with no refusal: the step that both models take.
    pub fn timed(self, reading: u32, memory: &mut [u8], identification: &mut [u8]) -> Core
        ensures value { result ≡ timed_in (own_part self) reading self memory.old }
        ensures memory_after { memory.new ≡ timed_memory (own_part self) reading self memory.old }
        ensures identification_after { identification.new
            ≡ timed_identification (own_part self) reading self identification.old }
    {
        let passed = elapsed(self.last, reading);
        if self.ends(passed) {
            let blank = self.store_page(memory);
            self.store_identification(identification);
            return self.ended().with_time(reading, 0).with_blank(blank);
        }
        self.with_time(reading, left_after(self.left, passed))
    }
}

// What is left of a cycle. By name, as the contracts of those who call it speak of it.
pub fn left_after(left: u32, passed: u32) -> u32
    ensures { result ≡ left - passed }
{
    left.saturating_sub(passed)
}

// Both lent slices are as long as the part has it.
pub fn lent_fits(part: u8, memory: usize, identification: usize) -> bool
    ensures { result ≡ lent_fits (part_of part) memory identification }
{
    (memory == size_of(part)) & (identification == page_of(part))
}

impl Core {
    // Refusal 2. A device of the pin model has its own test beside this one, since it has its own ranges.
    pub fn checked(self) -> Result<(), Refusal>
        ensures { result ≡ pick (in_ranges (own_part self) self) no_refusal (Err RecordRange) }
    {
        if self.in_ranges() {
            return Ok(());
        }
        Err(Refusal::RecordRange)
    }

    // Refusal 1 for lent slices of other lengths than the part's, then 2.
    pub fn admitted(self, memory: usize, identification: usize) -> Result<(), Refusal>
        ensures { result ≡ admitted (own_part self) self memory identification }
    {
        if !lent_fits(self.part, memory, identification) {
            return Err(Refusal::MemoryLength);
        }
        self.checked()
    }
}

// The public clock reading, for every input: 1 for a memory or an identification page of another length, then 2 for a
// record outside its ranges, both with everything as it was.
pub fn clock_reading(
    core: Core,
    reading: u32,
    memory: &mut [u8],
    identification: &mut [u8],
) -> Answered<(), Refusal>
    ensures value { result
        ≡ clock_reading (own_part core) reading core memory.old identification.old }
    ensures as_number { number result.answer
        ≡ reading_number (own_part core) core memory.old identification.old }
    ensures memory_after { memory.new
        ≡ clock_memory (own_part core) reading core memory.old identification.old }
    ensures identification_after { identification.new
        ≡ clock_identification (own_part core) reading core memory.old identification.old }
{
    match core.admitted(memory.len(), identification.len()) {
        Ok(()) => Answered {
            answer: Ok(()),
            core: core.timed(reading, memory, identification),
        },
        Err(refusal) => Answered {
            answer: Err(refusal),
            core,
        },
    }
}
