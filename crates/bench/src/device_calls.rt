// The pin model's device for C: power-up, one call for each kind of event, what a device shows, and a list of events
// at once.
ghost use Rattle.codes.specs.Refusals.{number};
ghost use Rattle.std.specs.Prelude.{◌≡◌};
ghost use Rattle.codes.specs.Part.{part_of};
ghost use Rattle.pins.specs.Devices.{device_part};
ghost use Rattle.codes.specs.Status.{on};
ghost use Rattle.chip.specs.Lents.{lent};
ghost use Rattle.chip.specs.Time.{timed_memory, timed_identification};
ghost use Rattle.pins.specs.Events.{on_s, on_c, on_d, on_w, on_hold};
ghost use Rattle.pins.specs.Answers.{answer_memory, memory_outcome};
ghost use Rattle.lists.specs.Answers.{play_memory, play_identification, play_output};
ghost use Rattle.pins.specs.Ranges.{device_fits};
ghost use Rattle.bench.specs.Calls.{bad_level, device_answer, device_power_up_call, pin_call, clock_pin_call};
ghost use Rattle.bench.specs.Calls.{device_reading_call};
ghost use Rattle.bench.specs.Calls.{q_call, device_status_call, device_in_ranges_call, play_call, touched_call};

use crate::core_calls::bad_flag;
use crate::{DeviceAnswer, Value};
use chip::{Core, lent_fits};
use codes::Refusal;
use pins::Device;

fn refused(number: u32, device: Device) -> DeviceAnswer
    ensures { result ≡ device_answer number device }
{
    DeviceAnswer { number, device }
}

// Power-up, at rest: the blank cells of the memory are counted. Refusal 1 for a memory that is not as long as the part
// has it, then 2 for a part that is none, a lock or a flag that is not 0 or 1, then 6 for the cycle length; each leaves
// the M95512 with no cell counted.
pub fn cartvesper_device_power_up(
    part: u8,
    lock: u8,
    cycle: u32,
    srwd: u8,
    bp1: u8,
    bp0: u8,
    reading: u32,
    memory: &[u8],
) -> DeviceAnswer
    ensures { result ≡ device_power_up_call part lock cycle srwd bp1 bp0 reading memory.now }
{
    if (lock <= 1) & (srwd <= 1) & (bp1 <= 1) & (bp0 <= 1) {
        return DeviceAnswer::from(pins::power_up(
            part,
            lock == 1,
            cycle,
            srwd == 1,
            bp1 == 1,
            bp0 == 1,
            reading,
            memory,
        ));
    }
    refused(
        bad_flag(part, memory.len()),
        Device::resting(Core::unpowered()),
    )
}

// The four pins that need no memory are four calls, since C has four names; a closure for them would be as long as
// each.

// S to a level. Refusal 2 for a level that is not 0 or 1, or a device outside its ranges.
pub fn cartvesper_device_set_s(device: Device, level: u8) -> DeviceAnswer
    ensures { result ≡ pin_call (device_part device) level (on_s (device_part device) (on level) device) device }
{
    if level <= 1 {
        return DeviceAnswer::from(device.set_s(level == 1));
    }
    refused(2, device)
}

// D to a level. Refusal 2.
pub fn cartvesper_device_set_d(device: Device, level: u8) -> DeviceAnswer
    ensures { result ≡ pin_call (device_part device) level (on_d (on level) device) device }
{
    if level <= 1 {
        return DeviceAnswer::from(device.set_d(level == 1));
    }
    refused(2, device)
}

// W to a level. Refusal 2.
pub fn cartvesper_device_set_w(device: Device, level: u8) -> DeviceAnswer
    ensures { result ≡ pin_call (device_part device) level (on_w (on level) device) device }
{
    if level <= 1 {
        return DeviceAnswer::from(device.set_w(level == 1));
    }
    refused(2, device)
}

// HOLD to a level. Refusal 2.
pub fn cartvesper_device_set_hold(device: Device, level: u8) -> DeviceAnswer
    ensures { result ≡ pin_call (device_part device) level (on_hold (on level) device) device }
{
    if level <= 1 {
        return DeviceAnswer::from(device.set_hold(level == 1));
    }
    refused(2, device)
}

// What lent slices of these lengths and a level of 2 get.
pub(crate) fn bad_level(part: u8, size: usize, cells: usize) -> u32
    ensures { result ≡ bad_level (part_of part) size cells }
{
    if lent_fits(part, size, cells) {
        return 2;
    }
    1
}

// C to a level. Refusals 1, then 2.
pub fn cartvesper_device_set_c(
    device: Device,
    level: u8,
    memory: &[u8],
    identification: &[u8],
) -> DeviceAnswer
    ensures { result
        ≡ clock_pin_call (device_part device) level
        (on_c (device_part device) (on level) (lent memory.now identification.now) device)
        device (lent memory.now identification.now) }
{
    if level <= 1 {
        return DeviceAnswer::from(device.set_c(level == 1, memory, identification));
    }
    refused(
        bad_level(device.core.part, memory.len(), identification.len()),
        device,
    )
}

// A clock reading, which may end a cycle and store its page. Refusals 1, 2.
pub fn cartvesper_device_read_clock(
    device: Device,
    reading: u32,
    memory: &mut [u8],
    identification: &mut [u8],
) -> DeviceAnswer
    ensures value { result ≡ device_reading_call (device_part device) device reading
        (lent memory.old identification.old) }
    ensures memory_after { memory.new
        ≡ answer_memory (memory_outcome (device_part device) device
        (lent memory.old identification.old))
        (timed_memory (device_part device) reading device.core memory.old) memory.old }
    ensures identification_after { identification.new
        ≡ answer_memory (memory_outcome (device_part device) device
        (lent memory.old identification.old))
        (timed_identification (device_part device) reading device.core identification.old)
        identification.old }
{
    DeviceAnswer::from(device.read_clock(reading, memory, identification))
}

// Value 1 for a device inside its ranges; refusal 2 for one outside them.
pub fn cartvesper_device_in_ranges(device: Device) -> Value
    ensures { result ≡ device_in_ranges_call (device_part device) device }
{
    if device.in_ranges() {
        return Value::from(Ok(1));
    }
    Value::from(Err(Refusal::RecordRange))
}

// What Q shows: value 0, 1, or 2 for Z. Refusal 2.
pub fn cartvesper_device_q(device: Device) -> Value
    ensures { result ≡ q_call (device_part device) device }
{
    Value::from(device.q().map(|level| u32::from(level.number())))
}

// The status byte. Refusal 2.
pub fn cartvesper_device_status(device: Device) -> Value
    ensures { result ≡ device_status_call (device_part device) device }
{
    Value::from(device.status().map(|byte| u32::from(byte)))
}

// How many cells the running cycle will touch, 0 where no latched bytes wait. Refusal 2.
pub fn cartvesper_device_touched(device: Device) -> Value
    ensures { result ≡ touched_call (device_part device) (device_fits (device_part device) device) device.core }
{
    Value::from(device.cells_touched())
}

// A list of events, each a number, and Q after each in the output. Refusals 1, 2, 5.
pub fn cartvesper_device_play(
    device: Device,
    memory: &mut [u8],
    identification: &mut [u8],
    events: &[u64],
    out: &mut [u8],
) -> DeviceAnswer
    ensures value { result ≡ play_call (device_part device) device
        (lent memory.old identification.old) events.now out.old }
    ensures memory_after { memory.new ≡ play_memory (device_part device) device
        (lent memory.old identification.old) events.now out.old }
    ensures identification_after { identification.new ≡ play_identification (device_part device) device
        (lent memory.old identification.old) events.now out.old }
    ensures out_after { out.new ≡ play_output (device_part device) device
        (lent memory.old identification.old) events.now out.old }
{
    DeviceAnswer::from(lists::play(device, memory, identification, events, out))
}
