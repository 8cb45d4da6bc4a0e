// A frame at whose eighth edge a cycle ran: RDSR shows the status byte by byte, nothing else is shown, and of the other
// instructions only WRDI may be executed. That the plain call would not refuse the frame is said in each contract: it
// speaks of five lengths, which no type holds.
ghost use Rattle.codes.specs.Refusals.{no_refusal};
ghost use Rattle.std.specs.Prelude.{◌≡◌, Bool, true, false, ◌+◌, ◌*◌, ◌-◌, ◌<◌, ◌≤◌, length, Ok};
ghost use Rattle.laws.specs.Pick.{pick};
ghost use Rattle.codes.specs.Part.{room_cells};
ghost use Rattle.chip.specs.Records.{own_part, running};
ghost use Rattle.fields.specs.Bytes.{instruction};
ghost use Rattle.shown.specs.Shown.{padded_at, output, undriven};
ghost use Rattle.frames.specs.After.{after};
ghost use Rattle.frames.specs.Play.{frame_bench};
ghost use Rattle.frames.specs.Answers.{frame_outcome};
ghost use Rattle.timed_frames.specs.Schedules.{due};
ghost use Rattle.timed_frames.specs.declared.Mode.{Mode};
ghost use Rattle.timed_frames.specs.InTime.{is_wrdi, is_rdsr, left_by, loaded_at, sights_in};
ghost use Rattle.timed_frames.specs.Walked.{Walked, statuses_over};

use crate::Mode;
use crate::walk::{Schedule, Walk};
use chip::{Answered, Core};
use codes::{Instruction, Refusal, wrdi_in_cycle};
use fields::instruction_of;

// By name, as the contracts below speak of them.
fn is_wrdi(i: Instruction) -> bool
    ensures { result ≡ is_wrdi i }
{
    i == Instruction::Wrdi
}

fn is_rdsr(i: Instruction) -> bool
    ensures { result ≡ is_rdsr i }
{
    i == Instruction::Rdsr
}

// What the frame leaves, where a cycle ran at its eighth edge, whatever W is.
fn after_ran(core: Core, bytes: &[u8], bits: usize) -> Core
    ensures { (w : Bool) → result ≡ after (own_part core) true w core bytes.now bits }
{
    let i = instruction_of(core.part, bytes);
    if wrdi_in_cycle(core.part) & is_wrdi(i) & (bits == 8) {
        return core.with_wel(0);
    }
    core
}

// Byte j is loaded once the readings before this position came.
fn loaded_at(mode: Mode, j: usize) -> usize
    requires { j ≤ room_cells + 4 }
    ensures { result ≡ loaded_at mode j }
{
    match mode {
        Mode::Zero => j,
        Mode::Three => j + 1,
    }
}

// Bits past the bit count, which are in the last byte, are 1.
fn padded_at(len: usize, bits: usize, j: usize, byte: u8) -> u8
    requires { (bits ≤ 8 * len) × (8 * len - bits < 8) × (j < len) × (len ≤ room_cells + 4) }
    ensures { result ≡ padded_at len bits j byte }
{
    if j + 1 == len {
        let unused = (8 * len - bits) as u8;
        return byte | ((1u8 << unused) - 1);
    }
    byte
}

// RDSR: every byte but the first shows the status as it was when it was loaded, and the walk goes as far as the last
// byte. Any other instruction shows nothing that changes, and the walk has not begun.
fn show_statuses(
    core: Core,
    i: Instruction,
    mode: Mode,
    bits: usize,
    schedule: Schedule,
    memory: &mut [u8],
    identification: &mut [u8],
    out: &mut [u8],
) -> Walk
    requires bits_bound { (bits ≤ 8 * length out.old) × (8 * length out.old - bits < 8)
        × (length out.old ≤ room_cells + 4) }
    requires out_len { is_rdsr i ≡ true → 1 ≤ length out.old }
    ensures walked { Walked (own_part core) schedule.entry.positions.now schedule.entry.readings.now
        (frame_bench core memory.old identification.old) (length out.old) result.next
        (frame_bench result.core memory.new identification.new) }
    ensures out_after { out.new ≡ pick (is_rdsr i)
        (statuses_over (own_part core) schedule.entry.positions.now schedule.entry.readings.now
        (frame_bench core memory.old identification.old) mode bits out.old) out.old }
{
    let mut walk = Walk { core, next: 0 };
    if !is_rdsr(i) {
        return walk;
    }
    // By index: the walk is asked for the byte's place.
    for j in 1..out.len() {
        walk = walk.to(loaded_at(mode, j), schedule, memory, identification);
        out[j] = padded_at(out.len(), bits, j, walk.core.status());
    }
    walk
}

// A frame at whose eighth edge a cycle ran, no reading of position 0 left. The plain call shows all but a changing
// status.
pub(crate) fn ran_frame(
    core: Core,
    memory: &mut [u8],
    identification: &mut [u8],
    w: bool,
    mode: Mode,
    bytes: &[u8],
    bits: usize,
    schedule: Schedule,
    out: &mut [u8],
) -> Answered<usize, Refusal>
    requires out_value { frame_outcome (own_part core) core (length memory.old) (length identification.old)
        (length bytes.now) bits (length out.old) ≡ no_refusal }
    requires none_at_0 { due 1 schedule.positions.now ≡ 0 }
    requires core_value { running core ≡ true }
    ensures answer_value { result.answer ≡ Ok (undriven (own_part core) (instruction (own_part core) bytes.now)
        (running core) bits) }
    ensures identification_after { frame_bench result.core memory.new identification.new
        ≡ left_by (own_part core) schedule.entry.positions.now schedule.entry.readings.now
        (frame_bench core memory.old identification.old) w bytes.now bits }
    ensures out_after { out.new ≡ output (own_part core) (running core)
        (sights_in (own_part core) schedule.entry.positions.now schedule.entry.readings.now
        (frame_bench core memory.old identification.old) mode) bytes.now bits }
{
    let shown = frames::frame(core, memory, identification, w, bytes, bits, out);
    let walk = show_statuses(
        core,
        instruction_of(core.part, bytes),
        mode,
        bits,
        schedule,
        memory,
        identification,
        out,
    );
    let last = walk.to(bits / 8 + 1, schedule, memory, identification);
    Answered {
        answer: shown.answer,
        core: after_ran(last.core, bytes, bits),
    }
}

// A frame at whose eighth edge no cycle ran, no reading of position 0 left. No reading inside it changes a cell or the
// status, so that it is the plain frame after all of them.
pub(crate) fn quiet_frame(
    core: Core,
    memory: &mut [u8],
    identification: &mut [u8],
    w: bool,
    bytes: &[u8],
    bits: usize,
    schedule: Schedule,
    out: &mut [u8],
) -> Answered<usize, Refusal>
    requires out_value { frame_outcome (own_part core) core (length memory.old) (length identification.old)
        (length bytes.now) bits (length out.old) ≡ no_refusal }
    requires none_at_0 { due 1 schedule.positions.now ≡ 0 }
    requires core_value { running core ≡ false }
    ensures answer_value { result.answer ≡ Ok (undriven (own_part core) (instruction (own_part core) bytes.now)
        (running core) bits) }
    ensures identification_after { frame_bench result.core memory.new identification.new
        ≡ left_by (own_part core) schedule.entry.positions.now schedule.entry.readings.now
        (frame_bench core memory.old identification.old) w bytes.now bits }
    ensures out_after { (o : Mode) → out.new ≡ output (own_part core) (running core)
        (sights_in (own_part core) schedule.entry.positions.now schedule.entry.readings.now
        (frame_bench core memory.old identification.old) o) bytes.now bits }
{
    let start = Walk { core, next: 0 };
    let last = start.to(bits / 8 + 1, schedule, memory, identification);
    frames::frame(last.core, memory, identification, w, bytes, bits, out)
}
