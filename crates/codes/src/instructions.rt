// The table of instructions: each code once, and a row for each instruction.
ghost use Rattle.std.specs.Prelude.{◌≡◌, true, false};
ghost use Rattle.codes.specs.Part.{m95512, part_of};
ghost use Rattle.codes.specs.declared.Instruction.TheVariants.{Wrid, Silence};
ghost use Rattle.codes.specs.Instructions.{decode, decode_identified, in_hold, row};
ghost use Rattle.codes.specs.Instructions.{is_write, is_wrid, picks_lock, sets_lock};

use crate::sizes::{identified, wrdi_in_cycle, write_bits_of};
use crate::{Count, Guard, Instruction, Row};

// Sets WEL, and clears it.
pub const WREN: u8 = 0x06;

pub const WRDI: u8 = 0x04;

// Reads the status byte, and writes its bits 7, 3 and 2.
pub const RDSR: u8 = 0x05;

pub const WRSR: u8 = 0x01;

// Reads cells from an address up, and writes within one page.
pub const READ: u8 = 0x03;

pub const WRITE: u8 = 0x02;

// Reads the identification page or its lock, and writes the page or sets the lock: of a part that has them.
pub const RDID: u8 = 0x83;

pub const WRID: u8 = 0x82;

// Bit 10 of the address: 0 picks the identification page, 1 its lock.
pub fn picks_lock(address: u32) -> bool
    ensures { result ≡ picks_lock address }
{
    address / 1024 % 2 == 1
}

// Bit 1 of a lock's data byte.
fn sets_lock(value: u8) -> bool
    ensures { result ≡ sets_lock value }
{
    value / 2 % 2 == 1
}

// The codes of a part with an identification page. Any other code waits in silence for deselect.
fn decode_identified(identified: bool, code: u8) -> Instruction
    ensures { result ≡ decode_identified identified code }
{
    if (code == RDID) & identified {
        return Instruction::Rdid;
    }
    if (code == WRID) & identified {
        return Instruction::Wrid;
    }
    Instruction::Silence
}

// What an instruction byte says.
pub fn decode(part: u8, code: u8) -> Instruction
    ensures { result ≡ decode (part_of part) code }
{
    match code {
        WREN => Instruction::Wren,
        WRDI => Instruction::Wrdi,
        RDSR => Instruction::Rdsr,
        WRSR => Instruction::Wrsr,
        READ => Instruction::Read,
        WRITE => Instruction::Write,
        _ => decode_identified(identified(part), code),
    }
}

// The instruction that writes cells of the memory, and the one that writes those of the identification page. By name,
// as the contracts of those who call them speak of them.
pub fn is_write(i: Instruction) -> bool
    ensures { result ≡ is_write i }
{
    i == Instruction::Write
}

pub fn is_wrid(i: Instruction) -> bool
    ensures { result ≡ is_wrid i }
{
    i == Instruction::Wrid
}

impl Row {
    // A row of the table; Hold at deselect stops it.
    fn known(count: Count, idle: bool, wel: bool, guard: Guard) -> Row
        ensures { result
            ≡ record { count = count; idle = idle; wel = wel; guard = guard; hold = false; known = true } }
    {
        Row {
            count,
            idle,
            wel,
            guard,
            hold: false,
            known: true,
        }
    }

    // A code that the table lacks.
    fn unknown() -> Row
        ensures { result ≡ row m95512 Silence 0 0 }
    {
        Row {
            count: Count::AnyBits,
            idle: false,
            wel: false,
            guard: Guard::Nothing,
            hold: false,
            known: false,
        }
    }

    // 82h where its address picks the lock, as 1024 does: its data byte must set it.
    fn lock(part: u8, value: u8) -> Row
        ensures { result ≡ row (part_of part) Wrid 1024 value }
    {
        Row {
            count: Count::Exactly(write_bits_of(part)),
            idle: true,
            wel: true,
            guard: Guard::CellLock,
            hold: false,
            known: sets_lock(value),
        }
    }

    // The row of an instruction that Hold at deselect does not stop.
    fn in_hold(mut self) -> Row
        ensures { result ≡ in_hold self }
    {
        self.hold = true;
        self
    }
}

// The table: bits at deselect, "no cycle", "WEL 1", what else stops it. At address 0, which picks the page.
fn table(part: u8, i: Instruction) -> Row
    ensures { result ≡ row (part_of part) i 0 0 }
{
    match i {
        Instruction::Wren => Row::known(Count::Exactly(8), true, false, Guard::Nothing),
        Instruction::Wrdi => Row::known(
            Count::Exactly(8),
            !wrdi_in_cycle(part),
            false,
            Guard::Nothing,
        ),
        Instruction::Rdsr => Row::known(Count::AnyBits, false, false, Guard::Nothing),
        Instruction::Wrsr => Row::known(Count::Exactly(16), true, true, Guard::StatusLock),
        Instruction::Read => Row::known(Count::AnyBits, true, false, Guard::Nothing),
        Instruction::Write => Row::known(
            Count::WholeBytes(write_bits_of(part)),
            true,
            true,
            Guard::CellLock,
        )
        .in_hold(),
        Instruction::Rdid => Row::known(Count::AnyBits, true, false, Guard::Nothing),
        Instruction::Wrid => Row::known(
            Count::WholeBytes(write_bits_of(part)),
            true,
            true,
            Guard::CellLock,
        ),
        Instruction::Silence => Row::unknown(),
    }
}

// The row of an instruction at an address and with a data byte.
pub(crate) fn row(part: u8, i: Instruction, address: u32, value: u8) -> Row
    ensures { result ≡ row (part_of part) i address value }
{
    if is_wrid(i) & picks_lock(address) {
        return Row::lock(part, value);
    }
    table(part, i)
}
