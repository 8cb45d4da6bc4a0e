// A supply cut for C, of the frame model's record and of the pin model's device.
ghost use Rattle.std.specs.Prelude.{◌≡◌};
ghost use Rattle.chip.specs.Lents.{lent};
ghost use Rattle.chip.specs.Records.{own_part};
ghost use Rattle.cuts.specs.Cuts.{cut_memory, cut_identification, cut_memory_answer, cut_identification_answer};
ghost use Rattle.pins.specs.Devices.{device_part};
ghost use Rattle.pins.specs.Answers.{answer_memory, memory_outcome};
ghost use Rattle.bench.specs.Calls.{cut_call, device_cut_call};

use crate::{CoreAnswer, DeviceAnswer};
use chip::Core;
use cuts::Choice;
use pins::Device;

// The cut of a record. Refusals 1, 2.
pub fn cartvesper_cut(
    core: Core,
    choice: Choice,
    memory: &mut [u8],
    identification: &mut [u8],
) -> CoreAnswer
    ensures value { result
        ≡ cut_call (own_part core) choice core memory.old identification.old }
    ensures memory_after { memory.new
        ≡ cut_memory_answer (own_part core) choice core memory.old identification.old }
    ensures identification_after { identification.new
        ≡ cut_identification_answer (own_part core) choice core memory.old identification.old }
{
    CoreAnswer::from(cuts::cut(core, choice, memory, identification))
}

// The cut of a device, whose pins are at rest then. Refusals 1, 2.
pub fn cartvesper_device_cut(
    device: Device,
    choice: Choice,
    memory: &mut [u8],
    identification: &mut [u8],
) -> DeviceAnswer
    ensures value { result ≡ device_cut_call (device_part device) choice device
        (lent memory.old identification.old) }
    ensures memory_after { memory.new
        ≡ answer_memory (memory_outcome (device_part device) device
        (lent memory.old identification.old))
        (cut_memory (device_part device) choice device.core memory.old) memory.old }
    ensures identification_after { identification.new
        ≡ answer_memory (memory_outcome (device_part device) device
        (lent memory.old identification.old))
        (cut_identification (device_part device) choice device.core identification.old)
        identification.old }
{
    DeviceAnswer::from(device.cut(choice, memory, identification))
}
