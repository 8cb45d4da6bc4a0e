// A supply cut and the power's return.
ghost use Rattle.std.specs.Prelude.{◌≡◌};
ghost use Rattle.codes.specs.Refusals.{number};
ghost use Rattle.chip.specs.Lents.{lent};
ghost use Rattle.cuts.specs.Cuts.{cut_memory, cut_identification};
ghost use Rattle.pins.specs.Devices.{device_part};
ghost use Rattle.pins.specs.Answers.{memory_outcome, memory_number, answer, answer_memory, cut_device};

use crate::{Device, Stepped};
use chip::lent_fits;
use codes::Refusal;
use cuts::{Choice, cut_core};

impl Device {
    // The pins are at rest then, and a frame in hand is dropped. Refused as a clock reading is: 1 for a lent slice of
    // another length, then 2.
    pub fn cut(self, choice: Choice, memory: &mut [u8], identification: &mut [u8]) -> Stepped
        ensures value { result
            ≡ answer (memory_outcome (device_part self) self (lent memory.old identification.old))
            (cut_device (device_part self) choice memory.old self) self }
        ensures as_number { number result.outcome ≡ memory_number (device_part self) self
            (lent memory.old identification.old) }
        ensures memory_after { memory.new
            ≡ answer_memory (memory_outcome (device_part self) self
            (lent memory.old identification.old))
            (cut_memory (device_part self) choice self.core memory.old) memory.old }
        ensures identification_after { identification.new
            ≡ answer_memory (memory_outcome (device_part self) self
            (lent memory.old identification.old))
            (cut_identification (device_part self) choice self.core identification.old)
            identification.old }
    {
        // Not by `admitted`, as in `read_clock`.
        let core = self.core;
        if lent_fits(core.part, memory.len(), identification.len()) {
            if self.in_ranges() {
                let next = cut_core(core, choice, memory, identification);
                return Device::resting(next).done();
            }
            return self.refused(Refusal::RecordRange);
        }
        self.refused(Refusal::MemoryLength)
    }
}
