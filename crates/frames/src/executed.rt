// What a frame leaves in the record.
ghost use Rattle.std.specs.Prelude.{◌≡◌};
ghost use Rattle.chip.specs.Records.{own_part, running};
ghost use Rattle.frames.specs.After.{judged, executed, after};

use chip::Core;
use codes::{Deselect, Instruction, Verdict, head_of, judge, page_number};
use fields::{address_of, byte_at, instruction_of, latch_of};

// No time passes inside a frame: a cycle ran at the eighth edge where one runs now.
fn verdict_of(core: Core, w: bool, bytes: &[u8], bits: usize) -> Verdict
    ensures { result ≡ judged (own_part core) (running core) w core bytes.now bits }
{
    let i = instruction_of(core.part, bytes);
    let address = address_of(core.part, bytes) as u32;
    judge(
        core.part,
        i,
        address,
        byte_at(bytes, usize::from(head_of(core.part))),
        Deselect {
            bits,
            ran: core.running(),
            wel: core.wel == 1,
            locked: (core.srwd == 1) & !w,
            protected: core.barred(i, address),
            held: false,
        },
    )
}

// The instruction's effect, once it is to be executed. The frame's data is latched for a WRITE and 82h alone.
fn execute(core: Core, bytes: &[u8]) -> Core
    ensures { result ≡ executed (own_part core) core bytes.now }
{
    match instruction_of(core.part, bytes) {
        Instruction::Wren => core.with_wel(1),
        Instruction::Wrdi => core.with_wel(0),
        Instruction::Wrsr => core.begin_status(byte_at(bytes, 1)),
        Instruction::Write => {
            let page = page_number(core.part, address_of(core.part, bytes));
            core.begin_page(page as u32, latch_of(core.part, bytes))
        }
        Instruction::Wrid => {
            let address = address_of(core.part, bytes);
            core.begin_identification(address as u32, latch_of(core.part, bytes))
        }
        _ => core,
    }
}

pub(crate) fn after(core: Core, w: bool, bytes: &[u8], bits: usize) -> Core
    ensures { result ≡ after (own_part core) (running core) w core bytes.now bits }
{
    if verdict_of(core, w, bytes, bits).is_executed() {
        return execute(core, bytes);
    }
    core
}
