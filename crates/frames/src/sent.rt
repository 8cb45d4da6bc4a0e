// Frames given by their fields, for one who sends them and looks at nothing that they show: WREN, and WRITE of a part
// of a page. Whole bytes, W high, no refusal.
ghost use Rattle.std.specs.Prelude.{◌≡◌};
ghost use Rattle.codes.specs.Part.{part_of};
ghost use Rattle.chip.specs.Records.{own_part};
ghost use Rattle.frames.specs.Sent.{after_all, wren_bytes, in_page, after_write};

use chip::Core;
use codes::{Deselect, Instruction, head_of, judge, page_number, page_of, size_of};
use fields::latch_part;
use latch::cell_of;

// The record that WREN leaves.
pub fn wren(core: Core) -> Core
    ensures { result ≡ after_all (own_part core) core wren_bytes }
{
    let verdict = judge(
        core.part,
        Instruction::Wren,
        0,
        0,
        Deselect {
            bits: 8,
            ran: core.running(),
            wel: core.wel == 1,
            locked: false,
            protected: false,
            held: false,
        },
    );
    if verdict.is_executed() {
        return core.with_wel(1);
    }
    core
}

// So many bytes from an address on stay in its page.
fn in_page(part: u8, address: usize, len: usize) -> bool
    ensures { result ≡ in_page (part_of part) address len }
{
    (address < size_of(part)) & (len <= page_of(part) - cell_of(part, address))
}

// The record that a WRITE of such bytes leaves; of others none is sent.
pub fn write(core: Core, address: usize, bytes: &[u8]) -> Core
    ensures { result ≡ after_write (own_part core) core address bytes.now }
{
    if !in_page(core.part, address, bytes.len()) {
        return core;
    }
    let verdict = judge(
        core.part,
        Instruction::Write,
        address as u32,
        0,
        Deselect {
            bits: 8 * (usize::from(head_of(core.part)) + bytes.len()),
            ran: core.running(),
            wel: core.wel == 1,
            locked: false,
            protected: core.protects(address as u32),
            held: false,
        },
    );
    if verdict.is_executed() {
        let page = page_number(core.part, address) as u32;
        return core.begin_page(page, latch_part(core.part, address, bytes));
    }
    core
}
