// The frame model with clock readings inside a frame: a poll that sits on RDSR sees the cycle end.
//
// Public call, for every input: timed_frame.
#![tactic(auto)]

ghost use Rattle.codes.specs.Refusals.{number, no_refusal, is_done};
ghost use Rattle.std.specs.Prelude.{◌≡◌, length, true, false};
ghost use Rattle.chip.specs.Lents.{lent};
ghost use Rattle.chip.specs.Records.{own_part};
ghost use Rattle.frames.specs.Answers.{frame_outcome};
ghost use Rattle.timed_frames.specs.Schedules.{places_fit};
ghost use Rattle.timed_frames.specs.Answers.{in_time_number, in_time_left, framed_in_time, output_in_time};
ghost use Rattle.timed_frames.specs.Answers.{AnsweredInTime};

use chip::{Answered, Core, lent_fits};
use codes::Refusal;
use fields::{bits_fit, length_fits};

mod polled;
mod walk;

use polled::{quiet_frame, ran_frame};
use walk::{Schedule, Walk, places_fit};

// The SPI mode: where the falling edge stands beside the readings of its position.
#[derive(Clone, Copy)]
pub enum Mode {
    Zero,
    Three,
}

// A bit count that no frame has.
const NO_COUNT: usize = usize::MAX;

// A frame with clock readings inside it, for every input. The lists say at which byte position each reading comes.
// Refusals 1, 2, 3, 4 and 5 in that order leave everything as it was; 4 is also for lists of unequal lengths and for
// positions that fall or pass the frame's whole bytes. With empty lists it is the plain call.
pub fn timed_frame(
    core: Core,
    memory: &mut [u8],
    identification: &mut [u8],
    w: bool,
    mode: Mode,
    bytes: &[u8],
    bits: usize,
    positions: &[usize],
    readings: &[u32],
    out: &mut [u8],
) -> Answered<usize, Refusal>
    ensures value { result ≡ framed_in_time (own_part core) core (lent memory.old identification.old) w
        bytes.now bits positions.now readings.now (length out.old) }
    ensures as_number { number result.answer
        ≡ in_time_number (own_part core) core (lent memory.old identification.old)
        bytes.now bits positions.now readings.now (length out.old) }
    ensures memory_after { memory.new
        ≡ (in_time_left (own_part core) core (lent memory.old identification.old) w
        bytes.now bits positions.now readings.now (length out.old)
        ).memory }
    ensures identification_after { identification.new
        ≡ (in_time_left (own_part core) core (lent memory.old identification.old) w
        bytes.now bits positions.now readings.now (length out.old)
        ).identification }
    ensures out_after { out.new
        ≡ output_in_time (own_part core) core (lent memory.old identification.old) mode
        bytes.now bits positions.now readings.now out.old }
{
    if positions.is_empty() & readings.is_empty() {
        return frames::frame(core, memory, identification, w, bytes, bits, out);
    }
    scheduled(
        core,
        memory,
        identification,
        w,
        mode,
        bytes,
        bits,
        positions,
        readings,
        out,
    )
}

// A frame by its lists: refused as they or the frame are, or carried out. The one chain of refusals is frame's.
fn scheduled(
    core: Core,
    memory: &mut [u8],
    identification: &mut [u8],
    w: bool,
    mode: Mode,
    bytes: &[u8],
    bits: usize,
    positions: &[usize],
    readings: &[u32],
    out: &mut [u8],
) -> Answered<usize, Refusal>
    ensures { AnsweredInTime (own_part core) core (lent memory.old identification.old)
        w mode bytes.now bits positions.now readings.now out.old
        result memory.new identification.new out.new }
{
    if !places_fit(bits, positions, readings) {
        return frames::frame(core, memory, identification, w, bytes, NO_COUNT, out);
    }
    if !frame_fits(
        core,
        memory.len(),
        identification.len(),
        bytes.len(),
        bits,
        out.len(),
    ) {
        return frames::frame(core, memory, identification, w, bytes, bits, out);
    }
    let schedule = Schedule {
        positions,
        readings,
    };
    carried_out(
        core,
        memory,
        identification,
        w,
        mode,
        bytes,
        bits,
        schedule,
        out,
    )
}

// A frame that is not refused: the readings at 0 come, and then it is one at whose eighth edge a cycle ran or none did.
fn carried_out(
    core: Core,
    memory: &mut [u8],
    identification: &mut [u8],
    w: bool,
    mode: Mode,
    bytes: &[u8],
    bits: usize,
    schedule: Schedule,
    out: &mut [u8],
) -> Answered<usize, Refusal>
    requires readings_value { places_fit bits schedule.positions.now schedule.readings.now ≡ true }
    requires out_value { frame_outcome (own_part core) core (length memory.old) (length identification.old)
        (length bytes.now) bits (length out.old) ≡ no_refusal }
    ensures { AnsweredInTime (own_part core) core (lent memory.old identification.old)
        w mode bytes.now bits schedule.entry.positions.now schedule.entry.readings.now out.old
        result memory.new identification.new out.new }
{
    let start = Walk { core, next: 0 };
    let first = start.to(1, schedule, memory, identification);
    let opened = first.core;
    let rest = schedule.after(first.next);
    if opened.running() {
        return ran_frame(
            opened,
            memory,
            identification,
            w,
            mode,
            bytes,
            bits,
            rest,
            out,
        );
    }
    quiet_frame(opened, memory, identification, w, bytes, bits, rest, out)
}

// Lengths, record and bit count are those of a frame.
fn frame_fits(core: Core, size: usize, cells: usize, len: usize, bits: usize, room: usize) -> bool
    ensures { (result ≡ true → frame_outcome (own_part core) core size cells len bits room ≡ no_refusal)
        × (result ≡ false → is_done (frame_outcome (own_part core) core size cells len bits room) ≡ false) }
{
    lent_fits(core.part, size, cells)
        & core.in_ranges()
        & length_fits(core.part, len)
        & bits_fit(len, bits)
        & (room == len)
}
