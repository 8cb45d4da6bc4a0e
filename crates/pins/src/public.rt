// The public calls, for every input: refusal 1 where memory is lent, then 2, both with everything as it was; else the
// event.
ghost use Rattle.codes.specs.Refusals.{value_of, value_by, no_refusal};
ghost use Rattle.std.specs.Prelude.{◌≡◌, Err, Ok};
ghost use Rattle.chip.specs.Power.{power_up_number};
ghost use Rattle.codes.specs.Refusals.{number};
ghost use Rattle.chip.specs.Lents.{lent};
ghost use Rattle.chip.specs.Time.{timed_memory, timed_identification};
ghost use Rattle.chip.specs.Touched.{cells_marked, touched_answer, touched_choice};
ghost use Rattle.edges.specs.Falling.{level_number};
ghost use Rattle.pins.specs.Devices.{device_part};
ghost use Rattle.pins.specs.Ranges.{device_fits};
ghost use Rattle.pins.specs.Events.{on_s, on_c, on_d, on_w, on_hold, on_time};
ghost use Rattle.pins.specs.Answers.{stepped_to, admitted, record_outcome, memory_outcome, record_number};
ghost use Rattle.pins.specs.Answers.{memory_number, answer};
ghost use Rattle.pins.specs.Answers.{answer_memory, q_answer, q_asked, status_answer};
ghost use Rattle.pins.specs.Answers.{status_asked, powered};

use crate::{Device, Stepped};
use chip::lent_fits;
use codes::Refusal;
use edges::Level;

// Power-up, with the pins at rest: the blank cells of the memory are counted. 1 for a memory that is not as long as the
// part has it, then 2 for a part that is none, then 6 for a cycle length that is not 1 to the longest; each leaves the
// M95512 with no cell counted.
pub fn power_up(
    part: u8,
    lock: bool,
    cycle: u32,
    srwd: bool,
    bp1: bool,
    bp0: bool,
    reading: u32,
    memory: &[u8],
) -> Stepped
    ensures value { result ≡ powered part lock cycle srwd bp1 bp0 reading memory.now }
    ensures as_number { number result.outcome ≡ power_up_number part cycle memory.now }
{
    let p = chip::power_up(part, lock, cycle, srwd, bp1, bp0, reading, memory);
    Stepped {
        outcome: p.answer,
        device: Device::resting(p.core),
    }
}

impl Device {
    pub(crate) fn done(self) -> Stepped
        ensures { result ≡ stepped_to no_refusal self }
    {
        Stepped {
            outcome: Ok(()),
            device: self,
        }
    }

    pub(crate) fn refused(self, refusal: Refusal) -> Stepped
        ensures { result ≡ stepped_to (Err refusal) self }
    {
        Stepped {
            outcome: Err(refusal),
            device: self,
        }
    }

    // The device that follows, or the device as given.
    fn answer(self, outcome: Result<(), Refusal>, next: Device) -> Stepped
        ensures { result ≡ answer outcome next self }
    {
        match outcome {
            Ok(()) => next.done(),
            Err(refusal) => self.refused(refusal),
        }
    }

    // Refusal 2.
    fn checked(&self) -> Result<(), Refusal>
        ensures { result ≡ record_outcome (device_part self.now) self.now }
    {
        if self.in_ranges() {
            return Ok(());
        }
        Err(Refusal::RecordRange)
    }

    // Refusal 1 for lent slices of other lengths than the part's, then 2.
    pub fn admitted(&self, memory: usize, identification: usize) -> Result<(), Refusal>
        ensures { result ≡ admitted (device_part self.now) self.now memory identification }
    {
        if !lent_fits(self.core.part, memory, identification) {
            return Err(Refusal::MemoryLength);
        }
        self.checked()
    }

    // The four that follow are one method for each kind of event, each the one line that differs.

    // S to a level. 2 for a device outside its ranges.
    pub fn set_s(self, level: bool) -> Stepped
        ensures value { result ≡ answer (record_outcome (device_part self) self) (on_s (device_part self) level self) self }
        ensures as_number { number result.outcome ≡ record_number (device_part self) self }
    {
        self.answer(self.checked(), self.on_s(level))
    }

    // D to a level. 2 for a device outside its ranges.
    pub fn set_d(self, level: bool) -> Stepped
        ensures value { result ≡ answer (record_outcome (device_part self) self) (on_d level self) self }
        ensures as_number { number result.outcome ≡ record_number (device_part self) self }
    {
        self.answer(self.checked(), self.on_d(level))
    }

    // W to a level. 2 for a device outside its ranges.
    pub fn set_w(self, level: bool) -> Stepped
        ensures value { result ≡ answer (record_outcome (device_part self) self) (on_w level self) self }
        ensures as_number { number result.outcome ≡ record_number (device_part self) self }
    {
        self.answer(self.checked(), self.on_w(level))
    }

    // HOLD to a level. 2 for a device outside its ranges.
    pub fn set_hold(self, level: bool) -> Stepped
        ensures value { result ≡ answer (record_outcome (device_part self) self) (on_hold level self) self }
        ensures as_number { number result.outcome ≡ record_number (device_part self) self }
    {
        self.answer(self.checked(), self.on_hold(level))
    }

    // C to a level, with the memory that READ shows and the page that 83h shows. 1 for a lent slice of another length,
    // then 2.
    pub fn set_c(self, level: bool, memory: &[u8], identification: &[u8]) -> Stepped
        ensures value { result
            ≡ answer (memory_outcome (device_part self) self (lent memory.now identification.now))
            (on_c (device_part self) level (lent memory.now identification.now) self) self }
        ensures as_number { number result.outcome ≡ memory_number (device_part self) self
            (lent memory.now identification.now) }
    {
        match self.admitted(memory.len(), identification.len()) {
            Ok(()) => self.on_c(level, memory, identification).done(),
            Err(refusal) => self.refused(refusal),
        }
    }

    // A clock reading, with the lent slices that the end of a cycle changes. 1 for one of another length, then 2.
    pub fn read_clock(self, reading: u32, memory: &mut [u8], identification: &mut [u8]) -> Stepped
        ensures value { result
            ≡ answer (memory_outcome (device_part self) self (lent memory.old identification.old))
            (on_time (device_part self) reading memory.old self) self }
        ensures as_number { number result.outcome ≡ memory_number (device_part self) self
            (lent memory.old identification.old) }
        ensures memory_after { memory.new
            ≡ answer_memory (memory_outcome (device_part self) self
            (lent memory.old identification.old))
            (timed_memory (device_part self) reading self.core memory.old) memory.old }
        ensures identification_after { identification.new
            ≡ answer_memory (memory_outcome (device_part self) self
            (lent memory.old identification.old))
            (timed_identification (device_part self) reading self.core identification.old)
            identification.old }
    {
        // Not by `admitted`: through it the record is copied more often.
        if lent_fits(self.core.part, memory.len(), identification.len()) {
            if self.in_ranges() {
                return self.on_time(reading, memory, identification).done();
            }
            return self.refused(Refusal::RecordRange);
        }
        self.refused(Refusal::MemoryLength)
    }

    // Q: 0, 1 or Z. 2 for a device outside its ranges.
    pub fn q(self) -> Result<Level, Refusal>
        ensures value { result ≡ q_answer (device_part self) self }
        ensures as_number { number result ≡ record_number (device_part self) self }
        ensures as_value { (value_by level_number) result ≡ q_asked (device_part self) self }
    {
        if self.in_ranges() {
            return Ok(self.shows());
        }
        Err(Refusal::RecordRange)
    }

    // The status byte. 2 for a device outside its ranges.
    pub fn status(self) -> Result<u8, Refusal>
        ensures value { result ≡ status_answer (device_part self) self }
        ensures as_number { number result ≡ record_number (device_part self) self }
        ensures as_value { value_of result ≡ status_asked (device_part self) self }
    {
        let core = self.core;
        if self.in_ranges() {
            return Ok(core.status());
        }
        Err(Refusal::RecordRange)
    }

    // How many cells the running cycle will touch, 0 where no latched bytes wait. 2 for a device outside its ranges.
    pub fn cells_touched(self) -> Result<u32, Refusal>
        ensures value { result ≡ touched_answer (device_fits (device_part self) self) self.core }
        ensures as_number { number result ≡ touched_choice (device_fits (device_part self) self) 2 0 }
        ensures as_value { value_of result
            ≡ touched_choice (device_fits (device_part self) self) 0 (cells_marked (device_part self) self.core) }
    {
        let core = self.core;
        if self.in_ranges() {
            return Ok(core.touched());
        }
        Err(Refusal::RecordRange)
    }
}
