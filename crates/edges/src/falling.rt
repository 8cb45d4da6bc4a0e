// An unheld falling edge moves Q to the next data bit; and what Q shows.
ghost use Rattle.std.specs.Prelude.{◌≡◌, ◌+◌, ◌-◌, ◌%◌, ◌<◌, get_or};
ghost use Rattle.codes.specs.Part.{part_of};
ghost use Rattle.chip.specs.Records.{own_part, lock_byte};
ghost use Rattle.codes.specs.Status.{bit_of};
ghost use Rattle.codes.specs.Output.{outputs};
ghost use Rattle.latch.specs.Identification.{identification_byte, identification_next};
ghost use Rattle.chip.specs.Lents.{lent};
ghost use Rattle.edges.specs.Frames.{with_out, with_address};
ghost use Rattle.edges.specs.Falling.{loading, level_shown, level_number};

use crate::rising::next_address;
use crate::{Frame, Level};
use chip::Core;
use codes::{Instruction, head_of, picks_lock, size_of};
use latch::cell_of;

// Data output: RDSR after its code; READ and 83h after their address, if no cycle ran at the eighth edge.
pub fn outputs(part: u8, i: Instruction, taken: u8, ran: bool) -> bool
    ensures { result ≡ outputs (part_of part) i taken ran }
{
    match i {
        Instruction::Rdsr => 1 <= taken,
        Instruction::Read | Instruction::Rdid => (head_of(part) <= taken) & !ran,
        _ => false,
    }
}

// The byte at an address; 0 past the memory.
pub fn cell(memory: &[u8], address: u32) -> u8
    ensures { result ≡ get_or memory.now address 0 }
{
    memory.get(address as usize).copied().unwrap_or(0)
}

// The next address, from the last one back to the first.
pub fn one_up(part: u8, address: u32) -> u32
    ensures { result ≡ (address + 1) % (part_of part).size }
{
    let last = size_of(part) as u32 - 1;
    ((address & last) + 1) & last
}

impl Frame {
    // A cell of the memory, and the address of the next.
    fn load_cell(self, part: u8, memory: &[u8]) -> Frame
        ensures { result ≡ with_address ((self.address + 1) % (part_of part).size)
            (with_out (get_or memory.now self.address 0) 1 self) }
    {
        let address = self.address;
        self.with_out(cell(memory, address), 1)
            .with_address(one_up(part, address))
    }

    // A cell of the identification page, and the address of the next; or the lock.
    fn load_identification(self, part: u8, lock: u8, identification: &[u8]) -> Frame
        ensures { result ≡ with_address (identification_next (part_of part) self.address)
            (with_out (identification_byte (part_of part) lock identification.now self.address) 1 self) }
    {
        let address = self.address;
        if picks_lock(address) {
            return self.with_out(lock, 1);
        }
        let at = cell_of(part, address as usize) as u32;
        self.with_out(cell(identification, at), 1)
            .with_address(next_address(part, address))
    }

    // The next data byte, of which bit 7 shows.
    pub fn loading(self, memory: &[u8], identification: &[u8], core: Core, i: Instruction) -> Frame
        ensures { result ≡ loading (own_part core)
            (lent memory.now identification.now) core i self }
    {
        match i {
            Instruction::Rdsr => self.with_out(core.status(), 1),
            Instruction::Read => self.load_cell(core.part, memory),
            Instruction::Rdid => self.load_identification(
                core.part,
                core.lock_byte(),
                identification,
            ),
            _ => self,
        }
    }
}

impl Level {
    // 0, 1, or 2 for Z.
    pub fn number(self) -> u8
        ensures { result ≡ level_number self }
    {
        self as u8
    }
}

// Bit k of a byte.
fn bit_of(k: u8, byte: u8) -> u8
    requires { k < 8 }
    ensures { result ≡ bit_of k byte }
{
    byte >> k & 1
}

// What Q shows, of the four fields that say it.
pub fn level_of(s: u8, held: u8, shown: u8, out: u8) -> Level
    ensures { result ≡ level_shown s held shown out }
{
    if (s != 1) & (held != 1) & (1 <= shown) {
        if bit_of(8u8.saturating_sub(shown), out) == 1 {
            return Level::One;
        }
        return Level::Zero;
    }
    Level::Z
}
