// What the data sheets of the M95512, the M95512-D and the M95M01 say with no record in hand: the parts' sizes, the
// instruction codes, the verdict on a frame, the status byte, where protection starts, and the numbers of the refusals.
//
// Every public function is an inner call of the models: total, and exactly its definition.
#![tactic(auto)]

mod answers;
mod instructions;
mod protect;
mod sizes;
mod status;
mod verdicts;

pub use answers::Numbered;
pub use instructions::{
    RDID, RDSR, READ, WRDI, WREN, WRID, WRITE, WRSR, decode, is_wrid, is_write, picks_lock,
};
pub use protect::lowest_protected;
pub use sizes::{
    ADDRESS_BYTES, DENSITY, FAMILY, LARGE_PAGE, LARGE_SIZE, M95M01, M95512, M95512D, MANUFACTURER,
    address_bytes_of, head_of, identified, is_part, longest_of, most_of, page_number, page_of,
    pages_of, size_of, wrdi_in_cycle,
};
pub use status::{bp0_of, bp1_of, srwd_of, status_byte, wide, writable};
pub use verdicts::judge;

// The refusals in their order, with their numbers, 1 to 8.
#[derive(Clone, Copy, PartialEq, Eq)]
pub enum Refusal {
    MemoryLength = 1,
    RecordRange,
    FrameLength,
    BitCount,
    OutputLength,
    CycleLength,
    AddressRange,
    PollRange,
}

// What an instruction byte says.
#[derive(Clone, Copy, PartialEq, Eq)]
pub enum Instruction {
    Wren,
    Wrdi,
    Rdsr,
    Wrsr,
    Read,
    Write,
    Rdid,
    Wrid,
    Silence,
}

// Bits at deselect: exactly so many, any number, or so many and more in whole bytes.
#[derive(Clone, Copy)]
pub enum Count {
    Exactly(usize),
    AnyBits,
    WholeBytes(usize),
}

// What stops an instruction beside a cycle, WEL and its count: SRWD 1 with W low, or protected cells.
#[derive(Clone, Copy)]
pub enum Guard {
    Nothing,
    StatusLock,
    CellLock,
}

// A row of the table of instructions; specs/Instructions.antt has the table.
#[derive(Clone, Copy)]
pub struct Row {
    pub count: Count,
    pub idle: bool,
    pub wel: bool,
    pub guard: Guard,
    pub hold: bool,
    pub known: bool,
}

// What a deselect is judged by, beside the instruction, its address and its data byte.
#[derive(Clone, Copy)]
pub struct Deselect {
    // counted edges
    pub bits: usize,
    // a cycle ran at the eighth of them
    pub ran: bool,
    pub wel: bool,
    // SRWD 1 with W low
    pub locked: bool,
    // the cells that it would write are protected
    pub protected: bool,
    // in Hold
    pub held: bool,
}

// What a deselect decides: the frame is executed, or the first test that failed.
#[derive(Clone, Copy, PartialEq, Eq)]
pub enum Verdict {
    Executed,
    CycleRan,
    WelOff,
    WrongCount,
    Guarded,
    OnHold,
    UnknownCode,
}
