// A part over its memory and its identification page: what a frame, a clock reading and a driver run make of it. A call
// is lent as many cells of the memory as the board says, and of the page as the part has.
use chip::{Answered, Core, clock_reading};
use codes::{LARGE_SIZE, Numbered, Refusal, page_of, size_of};
use driver::{RunError, Sent};
use frames::frame;
use latch::ROOM;

pub type Memory = [u8; LARGE_SIZE];

pub type Page = [u8; ROOM];

// A memory with every byte 0.
pub fn zeros() -> Memory {
    [0; LARGE_SIZE]
}

// One with every byte FFh.
pub fn blanks() -> Memory {
    [0xff; LARGE_SIZE]
}

// Of the memory the first `size` cells are lent.
#[derive(Clone, Copy)]
pub struct Board {
    pub core: Core,
    pub memory: Memory,
    pub size: usize,
    pub page: Page,
}

// What a frame gives back: its number, the undriven count and the output. The record that it leaves is the board's.
#[derive(Clone, Copy)]
pub struct Reply {
    pub number: u32,
    pub undriven: usize,
    pub out: [u8; 8],
}

// What a run gives back: its number, pages done and frames sent. What it leaves is the board's.
#[derive(Clone, Copy)]
pub struct Run {
    pub number: u32,
    pub sent: Sent,
}

// A clock reading. No method: parts of two fields that stand behind a reference are not lent at once.
fn read_clock(
    core: Core,
    reading: u32,
    memory: &mut Memory,
    size: usize,
    page: &mut Page,
) -> Answered<(), Refusal> {
    let size = size.min(LARGE_SIZE);
    clock_reading(
        core,
        reading,
        &mut memory[..size],
        &mut page[..page_of(core.part)],
    )
}

// A driver run. Its numbers stay parameters here and above, in the order of driver::write: as fields of a struct they
// would fill lines of every case.
fn write(
    core: Core,
    memory: &mut Memory,
    size: usize,
    page: &mut Page,
    address: u64,
    bytes: &[u8],
    interval: u32,
    limit: u32,
) -> Answered<Sent, RunError> {
    let size = size.min(LARGE_SIZE);
    driver::write(
        core,
        &mut memory[..size],
        &mut page[..page_of(core.part)],
        address,
        bytes,
        interval,
        limit,
    )
}

// The bytes of a run: 300 that differ at their ends, of which the first are written; 77h where it is one.
fn bytes_for(count: usize) -> [u8; 300] {
    let mut bytes = [0x55u8; 300];
    bytes[0] = if count == 1 { 0x77 } else { 0x11 };
    bytes[16] = 0x22;
    bytes[299] = 0x33;
    bytes
}

impl Board {
    // A part over its memory, with every byte of the identification page FFh.
    pub fn over(core: Core, memory: Memory) -> Board {
        Board {
            core,
            memory,
            size: size_of(core.part),
            page: [0xff; ROOM],
        }
    }

    // The same with so many cells lent.
    pub fn lent(mut self, size: usize) -> Board {
        self.size = size;
        self
    }

    // The cells that are lent.
    fn cells(&self) -> &[u8] {
        let size = self.size.min(LARGE_SIZE);
        &self.memory[..size]
    }

    // The number of blank cells, counted afresh.
    pub fn counted(&self) -> u32 {
        self.core.counted(self.cells()).blank
    }

    // A frame with W high: so many bits of some bytes, with room for so many bytes, up to eight.
    pub fn ask(&mut self, bytes: &[u8], bits: usize, room: usize) -> Reply {
        let mut out = [0u8; 8];
        let page = &self.page[..page_of(self.core.part)];
        let shown = &mut out[..room.min(8)];
        let framed = frame(self.core, self.cells(), page, true, bytes, bits, shown);
        self.core = framed.core;
        Reply {
            number: framed.answer.number(),
            undriven: framed.answer.unwrap_or(0),
            out,
        }
    }

    // A frame with room for as many bytes as it has.
    pub fn send(&mut self, bytes: &[u8], bits: usize) -> Reply {
        self.ask(bytes, bits, bytes.len())
    }

    // The board after a frame of whole bytes.
    pub fn after(mut self, bytes: &[u8]) -> Board {
        self.send(bytes, bytes.len().saturating_mul(8));
        self
    }

    // A clock reading: its number.
    pub fn read(&mut self, reading: u32) -> u32 {
        let Board {
            core,
            memory,
            size,
            page,
        } = self;
        let timed = read_clock(*core, reading, memory, *size, page);
        self.core = timed.core;
        timed.answer.number()
    }

    // A driver run of so many bytes, up to 300, from an address on.
    pub fn run(&mut self, address: u64, count: usize, interval: u32, limit: u32) -> Run {
        let bytes = bytes_for(count);
        let sent = &bytes[..count.min(300)];
        let Board {
            core,
            memory,
            size,
            page,
        } = self;
        let driven = write(*core, memory, *size, page, address, sent, interval, limit);
        self.core = driven.core;
        Run {
            number: driven.answer.number(),
            sent: Sent::of(driven.answer),
        }
    }
}
