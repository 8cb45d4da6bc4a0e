// Page parts: WREN and WRITE for each, its wait, and what its last poll says.
ghost use Rattle.std.specs.Prelude.{◌+◌, ◌%◌, ◌<◌, ◌≤◌, length};
ghost use Rattle.chip.specs.Records.{own_part};
ghost use Rattle.split.specs.Split.{count};
ghost use Rattle.frames.specs.Play.{frame_bench};
ghost use Rattle.sequence.specs.Sequence.{page_acts, part_acts, all_parts};
ghost use Rattle.driver.specs.Told.{ToldFrom};
ghost use Rattle.driver.specs.Answers.{parts_answer, Drove};

use crate::polls::Polls;
use crate::status::wip;
use crate::waiting::{Waited, page_wait};
use crate::{RunError, Sent};
use chip::{Answered, Core};
use split::{cartvesper_split_address, cartvesper_split_length, cartvesper_split_parts};

// One page: WREN and WRITE without moving the clock, then its wait.
fn write_page(
    core: Core,
    memory: &mut [u8],
    identification: &mut [u8],
    address: usize,
    bytes: &[u8],
    polls: Polls,
) -> Waited
    requires address_bound { address < (own_part core).size }
    requires bytes_bound { address % (own_part core).page + length bytes.now ≤ (own_part core).page }
    ensures { ToldFrom (own_part core) (page_acts (own_part core) polls.interval polls.limit address bytes.now)
        (frame_bench core memory.old identification.old) result memory.new
        identification.new }
{
    let enabled = frames::wren(core);
    let begun = frames::write(enabled, address, bytes);
    page_wait(begun, memory, identification, polls).and_sent(2)
}

// Part k of the run: its bytes are lent on, not copied.
fn write_part(
    core: Core,
    memory: &mut [u8],
    identification: &mut [u8],
    address: u64,
    bytes: &[u8],
    k: u64,
    polls: Polls,
) -> Waited
    requires { k < count (own_part core).size (own_part core).page address (length bytes.now) }
    ensures { ToldFrom (own_part core) (part_acts (own_part core) polls.interval polls.limit address bytes.now k)
        (frame_bench core memory.old identification.old) result memory.new
        identification.new }
{
    let n = bytes.len() as u64;
    let start = cartvesper_split_address(core.part, address, n, k);
    let from = (start - address) as usize;
    let end = from + cartvesper_split_length(core.part, address, n, k) as usize;
    write_page(
        core,
        memory,
        identification,
        start as usize,
        &bytes[from..end],
        polls,
    )
}

// All parts, in rising address order, after `sent` frames.
pub(crate) fn write_parts(
    core: Core,
    memory: &mut [u8],
    identification: &mut [u8],
    address: u64,
    bytes: &[u8],
    polls: Polls,
    sent: u32,
) -> Answered<Sent, RunError>
    requires { sent ≤ 5001 }
    ensures { Drove (own_part core) (parts_answer sent)
        (all_parts (own_part core) polls.interval polls.limit address bytes.now)
        (frame_bench core memory.old identification.old) result memory.new
        identification.new }
{
    let parts = cartvesper_split_parts(core.part, address, bytes.len() as u64, 0);
    let mut next = core;
    let mut frames = sent;
    for k in 0..parts {
        let page = write_part(next, memory, identification, address, bytes, k, polls);
        next = page.core;
        frames += page.frames;
        if wip(page.status) {
            return Answered {
                answer: Err(RunError::TimedOut(Sent {
                    pages: k as u32,
                    frames,
                })),
                core: next,
            };
        }
    }
    Answered {
        answer: Ok(Sent {
            pages: parts as u32,
            frames,
        }),
        core: next,
    }
}
