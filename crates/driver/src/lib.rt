// The driver: writes any run of bytes as page writes. WREN and WRITE go through the frame model's promise; a wait reads
// the record's status and steps its time (docs/DECISIONS.md, Forms). From a record inside its ranges no frame of a run
// is refused (run_accepted of sequence), so the ranges are tested once.
//
// It waits until no cycle runs, reads from the status byte that ended that wait where protection starts, and refuses a
// run that touches the block. Else it sends WREN and WRITE for each page part and waits for the end of its cycle. It
// says exactly what it did.
//
// An address and the bytes for it are two parameters: they are handed over apart, and need not lie in the memory
// (refusal 7).
//
// Public call, for every input: write. Inner calls, total, and exactly their definitions: Sent::of, RunError's number.
#![tactic(auto)]

ghost use Rattle.std.specs.Prelude.{◌≡◌, ◌+◌, ◌≤◌, length};
ghost use Rattle.chip.specs.Records.{own_part};
ghost use Rattle.frames.specs.Play.{frame_bench};
ghost use Rattle.sequence.specs.Sequence.{run};
ghost use Rattle.driver.specs.Answers.{run_reply_number, run_reply_pages, run_reply_frames, run_answer, Drove};
ghost use Rattle.driver.specs.Answers.{drive_number, drive_pages, drive_frames};
ghost use Rattle.driver.specs.Answers.{driven, driven_memory, driven_identification};

use chip::{Answered, Core};
use codes::Refusal;
use polls::Polls;

mod answers;
mod pages;
mod polls;
mod refused;
mod status;
mod waiting;

// Pages done and frames sent.
#[derive(Clone, Copy, PartialEq, Eq)]
pub struct Sent {
    pub pages: u32,
    pub frames: u32,
}

// Why a run was not done: a wait used its limit, the data touches the protected block, or the call was refused.
#[derive(Clone, Copy, PartialEq, Eq)]
pub enum RunError {
    TimedOut(Sent),
    Protected(Sent),
    Refused(Refusal),
}

// The run of an input that is not refused: nothing for no data, else the first wait and, where the data does not touch
// the protected block, the page parts.
fn drive(
    core: Core,
    memory: &mut [u8],
    identification: &mut [u8],
    address: u64,
    bytes: &[u8],
    polls: Polls,
) -> Answered<Sent, RunError>
    requires { address + length bytes.now ≤ (own_part core).size }
    ensures { Drove (own_part core) run_answer (run (own_part core) polls.interval polls.limit address bytes.now)
        (frame_bench core memory.old identification.old) result memory.new
        identification.new }
{
    if bytes.is_empty() {
        return Answered {
            answer: Ok(Sent {
                pages: 0,
                frames: 0,
            }),
            core,
        };
    }
    let first = waiting::first_wait(core, memory, identification, polls);
    let sent = Sent {
        pages: 0,
        frames: first.frames,
    };
    if status::wip(first.status) {
        return Answered {
            answer: Err(RunError::TimedOut(sent)),
            core: first.core,
        };
    }
    if status::block_touched(core.part, first.status, address, bytes.len()) {
        return Answered {
            answer: Err(RunError::Protected(sent)),
            core: first.core,
        };
    }
    pages::write_parts(
        first.core,
        memory,
        identification,
        address,
        bytes,
        polls,
        first.frames,
    )
}

// Writes the bytes from an address on, with polls at an interval of microseconds and a limit of polls for each wait.
// Refusals 1, 2, 7 and 8 in that order leave the record, the memory and the identification page as they were; else the
// answer is 0, 9 for a wait that used its limit or 13 for data that touches the protected block, with the pages done
// and the frames sent. The identification page changes only by a cycle that was running at the start.
pub fn write(
    core: Core,
    memory: &mut [u8],
    identification: &mut [u8],
    address: u64,
    bytes: &[u8],
    interval: u32,
    limit: u32,
) -> Answered<Sent, RunError>
    ensures value { result
        ≡ driven (own_part core) core memory.old identification.old address
        bytes.now interval limit }
    ensures as_number { run_reply_number result.answer
        ≡ drive_number (own_part core) core (length memory.old) (length identification.old) address
        (length bytes.now) interval limit
        (run (own_part core) interval limit address bytes.now
        (frame_bench core memory.old identification.old)).ending }
    ensures as_pages { run_reply_pages result.answer
        ≡ drive_pages (own_part core) core memory.old identification.old address
        bytes.now interval limit }
    ensures as_frames { run_reply_frames result.answer
        ≡ drive_frames (own_part core) core memory.old identification.old address
        bytes.now interval limit }
    ensures memory_after { memory.new
        ≡ driven_memory (own_part core) core memory.old identification.old address
        bytes.now interval limit }
    ensures identification_after { identification.new
        ≡ driven_identification (own_part core) core memory.old identification.old address
        bytes.now interval limit }
{
    let checked = refused::outcome(
        core,
        memory.len(),
        identification.len(),
        address,
        bytes.len(),
        interval,
        limit,
    );
    if let Err(refusal) = checked {
        return Answered {
            answer: Err(RunError::from(refusal)),
            core,
        };
    }
    let polls = Polls { interval, limit };
    drive(core, memory, identification, address, bytes, polls)
}
