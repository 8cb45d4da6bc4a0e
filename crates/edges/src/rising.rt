// A counted rising edge takes the bit on D, high bit first.
ghost use Rattle.std.specs.Prelude.{◌≡◌, ◌+◌, ◌*◌, ◌-◌, ◌%◌, ◌^◌, ◌<◌};
ghost use Rattle.codes.specs.Part.{part_of};
ghost use Rattle.latch.specs.Latches.{next_in_page};
ghost use Rattle.codes.specs.declared.Instruction.TheVariants.{Wrsr, Read, Write, Wrid};
ghost use Rattle.edges.specs.Rising.{shifted_in, address_byte, latch_byte, identification_data, taking, whole_byte};

use crate::Frame;
use crate::places::{less, place};
use codes::{Instruction, address_bytes_of, head_of, picks_lock, size_of};
use latch::{cell_of, next_cell};

// A byte with one more bit at its low end.
pub fn shifted_in(partial: u8, d: u8) -> u8
    ensures { result ≡ shifted_in partial d }
{
    partial % 128 * 2 + u8::from(d == 1)
}

// One more address byte goes to its place, by the whole bytes before it: the first one is the high byte.
pub fn address_with(part: u8, address: u32, before: u8, byte: u8) -> u32
    ensures { result ≡ (address + byte * 256 ^ ((part_of part).address_bytes - before)) % (part_of part).size }
{
    let value = byte as u64 * place(less(address_bytes_of(part), before));
    ((address as u64 + value) & (size_of(part) as u64 - 1)) as u32
}

// The next cell of the page that an address is in.
pub fn next_address(part: u8, address: u32) -> u32
    ensures { result ≡ next_in_page (part_of part) address }
{
    let at = address as usize;
    (at - cell_of(part, at) + next_cell(part, at)) as u32
}

impl Frame {
    fn address_byte(self, part: u8, before: u8, byte: u8) -> Frame
        ensures { result ≡ address_byte (part_of part) before byte self }
    {
        self.with_address(address_with(part, self.address, before, byte))
    }

    // A data byte goes to its cell, and the address moves to the next cell of the page.
    fn latch_byte(self, part: u8, byte: u8) -> Frame
        ensures { result ≡ latch_byte (part_of part) byte self }
    {
        let address = self.address;
        let latch = self.latch;
        self.with_latch(latch.with(part, address as usize, byte))
            .with_address(next_address(part, address))
    }

    // A data byte of 82h: the lock's, of which the first stays, or one of the identification page.
    fn identification_data(self, part: u8, before: u8, byte: u8) -> Frame
        ensures { result ≡ identification_data (part_of part) before byte self }
    {
        if picks_lock(self.address) {
            if before == head_of(part) {
                return self.with_value(byte);
            }
            return self;
        }
        self.latch_byte(part, byte)
    }

    fn status_byte(self, part: u8, before: u8, byte: u8) -> Frame
        ensures { result ≡ taking (part_of part) Wrsr before byte self }
    {
        if before == 1 {
            return self.with_value(byte);
        }
        self
    }

    // What a whole byte is for, by the instruction and by the whole bytes before it: an address's comes before the
    // data, and READ and 83h take their address alone.
    fn taking(self, part: u8, i: Instruction, before: u8, byte: u8) -> Frame
        ensures { result ≡ taking (part_of part) i before byte self }
    {
        match i {
            Instruction::Wrsr => self.status_byte(part, before, byte),
            Instruction::Read | Instruction::Write | Instruction::Rdid | Instruction::Wrid
                if before <= address_bytes_of(part) => { self.address_byte(part, before, byte) }
            Instruction::Write => self.latch_byte(part, byte),
            Instruction::Wrid => self.identification_data(part, before, byte),
            _ => self,
        }
    }

    // The first whole byte is the code; every later one is the instruction's.
    pub fn whole_byte(self, part: u8, running: bool, byte: u8) -> Frame
        ensures { result ≡ whole_byte (part_of part) running byte self }
    {
        if self.taken == 0 {
            return self.with_byte(part).with_code(byte, running);
        }
        self.with_byte(part)
            .taking(part, codes::decode(part, self.code), self.taken, byte)
    }
}
