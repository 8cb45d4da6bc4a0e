// A list of events at once: the ranges are checked once, and then the events are taken one after another.
ghost use Rattle.std.specs.Prelude.{◌≡◌, length};
ghost use Rattle.codes.specs.Refusals.{number};
ghost use Rattle.chip.specs.Lents.{lent};
ghost use Rattle.pins.specs.Devices.{device_part};
ghost use Rattle.pins.specs.Answers.{played, pin_bench};
ghost use Rattle.lists.specs.Answers.{play_answer, play_number, play_outcome, play_memory, play_identification};
ghost use Rattle.lists.specs.Answers.{play_output, played_q};

use crate::Way;
use crate::fronts::front_of;
use crate::stretches::stretch_on;
use codes::Refusal;
use events::{are_events, event_of};
use latch::{Latch, ROOM, WORDS, latch_byte};
use pins::{Device, Stepped};

// The events one after another, and Q after each. The front is held apart, so that most events move numbers and copy
// no record. After each event those that stay within a byte are taken in a loop of their own.
fn play_all(
    device: Device,
    memory: &mut [u8],
    identification: &mut [u8],
    events: &[u64],
    out: &mut [u8],
) -> Device
    requires { length out.old ≡ length events.now }
    ensures value { result ≡ (played (device_part device) events.now
        (pin_bench device memory.old identification.old)).device }
    ensures memory_after { memory.new ≡ (played (device_part device) events.now
        (pin_bench device memory.old identification.old)).memory }
    ensures identification_after { identification.new ≡ (played (device_part device) events.now
        (pin_bench device memory.old identification.old)).identification }
    ensures out_after { out.new ≡ played_q (device_part device) events.now
        (pin_bench device memory.old identification.old) }
{
    let frame = device.frame;
    let latch = frame.latch;
    let mut front = front_of(device);
    let mut bytes = latch.bytes;
    let mut marks = latch.marks;
    let mut core = device.core;
    let mut q = front.q();
    let mut i: usize = 0;
    // Stays a loop by index: a stretch takes many events at once, and says where it ended.
    while i < events.len() {
        let event = event_of(events[i]);
        let way = front.way_for(event, memory, core);
        match way {
            Way::Data(d) => {
                front.d = d;
            }
            Way::Set { w, hold, held } => {
                front.w = w;
                front.hold = hold;
                front.held = held;
                q = front.q();
            }
            Way::Rise {
                taken,
                bits,
                partial,
                code,
                ran,
                value,
                address,
            } => {
                front.c = 1;
                front.taken = taken;
                front.bits = bits;
                front.partial = partial;
                front.code = code;
                front.ran = ran;
                front.value = value;
                front.address = address;
            }
            Way::Latched {
                taken,
                byte,
                address,
            } => {
                latch_byte(
                    core.part,
                    &mut bytes,
                    &mut marks,
                    front.address as usize,
                    byte,
                );
                front.c = 1;
                front.taken = taken;
                front.bits = 0;
                front.partial = 0;
                front.address = address;
            }
            Way::Fall {
                held,
                out,
                shown,
                address,
            } => {
                front.c = 0;
                front.held = held;
                front.out = out;
                front.shown = shown;
                front.address = address;
                q = front.q();
            }
            Way::Clear(s, held, wel) => {
                front = front.without_frame(s, held);
                bytes = [0; ROOM];
                marks = [0; WORDS];
                core.wel = wel;
                q = 2; // Z
            }
            Way::Pass { reading, left } => {
                core.last = reading;
                core.left = left;
            }
            Way::Whole => {
                let latch = Latch { bytes, marks };
                let next = front
                    .whole(latch, core)
                    .stepped(event, memory, identification);
                let frame = next.frame;
                let latch = frame.latch;
                front = front_of(next);
                bytes = latch.bytes;
                marks = latch.marks;
                core = next.core;
                q = front.q();
            }
        }
        out[i] = q;
        i += 1;
        let stretch = stretch_on(front, core.part, q, i, events, out);
        front = stretch.front;
        q = stretch.q;
        i = stretch.i;
    }
    let latch = Latch { bytes, marks };
    front.whole(latch, core)
}

// Refusals 1 and 2 as of any event, then 2 for a number that is no event, and 5 for an output of another length.
fn admitted(
    device: Device,
    memory: &[u8],
    identification: &[u8],
    events: &[u64],
    room: usize,
) -> Result<(), Refusal>
    ensures { result ≡ play_outcome (device_part device) device (lent memory.now identification.now) events.now room }
{
    device.admitted(memory.len(), identification.len())?;
    if !are_events(events) {
        return Err(Refusal::RecordRange);
    }
    if room != events.len() {
        return Err(Refusal::OutputLength);
    }
    Ok(())
}

// A lent list of events, each a number, and a lent output for Q after each: 0, 1, or 2 for Z.
// Refusals 1 for a memory or an identification page of another length, 2 for a device outside its ranges or a number
// that is no event, and 5 for an output of another length, with everything as it was.
pub fn play(
    device: Device,
    memory: &mut [u8],
    identification: &mut [u8],
    events: &[u64],
    out: &mut [u8],
) -> Stepped
    ensures value { result ≡ play_answer (device_part device) device
        (lent memory.old identification.old) events.now out.old }
    ensures as_number { number result.outcome ≡ play_number (device_part device) device
        (lent memory.old identification.old) events.now (length out.old) }
    ensures memory_after { memory.new ≡ play_memory (device_part device) device
        (lent memory.old identification.old) events.now out.old }
    ensures identification_after { identification.new ≡ play_identification (device_part device) device
        (lent memory.old identification.old) events.now out.old }
    ensures out_after { out.new ≡ play_output (device_part device) device
        (lent memory.old identification.old) events.now out.old }
{
    match admitted(device, memory, identification, events, out.len()) {
        Ok(()) => Stepped {
            outcome: Ok(()),
            device: play_all(device, memory, identification, events, out),
        },
        Err(refusal) => Stepped {
            outcome: Err(refusal),
            device,
        },
    }
}
