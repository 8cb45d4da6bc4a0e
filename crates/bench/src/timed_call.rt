// The frame model's frame with clock readings inside it, for C.
ghost use Rattle.std.specs.Prelude.{◌≡◌, length};
ghost use Rattle.chip.specs.Lents.{lent};
ghost use Rattle.chip.specs.Records.{own_part};
ghost use Rattle.bench.specs.Calls.{mode_of, timed_call, timed_call_memory, timed_call_identification};
ghost use Rattle.bench.specs.Calls.{timed_call_output};

use crate::FrameAnswer;
use crate::device_calls::bad_level;
use chip::Core;
use timed_frames::Mode;

// The mode of a number that is 0 or 3. No TryFrom: the call tests the number together with the level of W, for refusal
// 2.
fn mode_of(mode: u8) -> Mode
    ensures { result ≡ mode_of mode }
{
    if mode == 3 {
        return Mode::Three;
    }
    Mode::Zero
}

// A whole frame with clock readings inside it, each at its byte position. Refusals 1, 2, 3, 4, 5; a level that is not 0
// or 1 and a mode that is not 0 or 3 get 2 too. With empty lists it is the plain frame.
pub fn cartvesper_timed_frame(
    core: Core,
    memory: &mut [u8],
    identification: &mut [u8],
    w: u8,
    mode: u8,
    bytes: &[u8],
    bits: usize,
    positions: &[usize],
    readings: &[u32],
    out: &mut [u8],
) -> FrameAnswer
    ensures value { result
        ≡ timed_call (own_part core) core (lent memory.old identification.old) w mode
        bytes.now bits positions.now readings.now (length out.old) }
    ensures memory_after { memory.new
        ≡ timed_call_memory (own_part core) core (lent memory.old identification.old) w mode
        bytes.now bits positions.now readings.now (length out.old) }
    ensures identification_after { identification.new
        ≡ timed_call_identification (own_part core) core (lent memory.old identification.old) w
        mode bytes.now bits positions.now readings.now
        (length out.old) }
    ensures out_after { out.new
        ≡ timed_call_output (own_part core) core (lent memory.old identification.old) w mode
        bytes.now bits positions.now readings.now out.old }
{
    if (w <= 1) & ((mode == 0) | (mode == 3)) {
        // timed_frame makes this test too, but through it the record is copied more often.
        if positions.is_empty() & readings.is_empty() {
            return FrameAnswer::from(frames::frame(
                core,
                memory,
                identification,
                w == 1,
                bytes,
                bits,
                out,
            ));
        }
        return FrameAnswer::from(timed_frames::timed_frame(
            core,
            memory,
            identification,
            w == 1,
            mode_of(mode),
            bytes,
            bits,
            positions,
            readings,
            out,
        ));
    }
    FrameAnswer {
        number: bad_level(core.part, memory.len(), identification.len()),
        undriven: 0,
        core,
    }
}
