// Deselect in Hold, event by event through the public calls of the pin model: a frame is clocked in, HOLD goes low and
// S rises. A line for each frame: its status byte afterwards, the time left, and the cell once the longest cycle has
// passed. First the M95512, then the M95M01. The gate compares them with the file stdout.
#![tactic(auto)]

use chip::Core;
use codes::{
    LARGE_SIZE, M95M01, M95512, READ, WRDI, WREN, WRITE, WRSR, longest_of, page_of, size_of,
};
use latch::ROOM;
use pins::{Device, Stepped};
use std::io;
use std::io::Write;

// Bit k of a frame; 0 past its end.
fn bit_at(frame: &[u8], k: usize) -> bool {
    match frame.get(k / 8) {
        Some(byte) => *byte >> (7 - k % 8) & 1 == 1,
        None => false,
    }
}

// A device over the room for its memory and its identification page. Of each as many cells are lent as the part has.
#[derive(Drop)]
struct Board {
    device: Device,
    memory: [u8; LARGE_SIZE],
    identification: [u8; ROOM],
}

// A clock reading. No method: parts of two fields that stand behind a reference are not lent at once.
fn read_clock(
    device: Device,
    reading: u32,
    memory: &mut [u8; LARGE_SIZE],
    identification: &mut [u8; ROOM],
) -> Stepped {
    let part = device.core.part;
    device.read_clock(
        reading,
        &mut memory[..size_of(part)],
        &mut identification[..page_of(part)],
    )
}

impl Board {
    // Power-up over its cells.
    fn power_up(&mut self, part: u8, bp0: bool) {
        let cells = &self.memory[..size_of(part)];
        self.device = pins::power_up(
            part,
            false,
            longest_of(part),
            false,
            false,
            bp0,
            0,
            cells,
        ).device;
    }

    fn set_c(&mut self, level: bool) {
        let part = self.device.core.part;
        let memory = &self.memory[..size_of(part)];
        let identification = &self.identification[..page_of(part)];
        self.device = self.device.set_c(level, memory, identification).device;
    }

    // A bit of a frame: D, then a clock.
    fn clock(&mut self, level: bool) {
        self.device = self.device.set_d(level).device;
        self.set_c(true);
        self.set_c(false);
    }

    // A frame's first bits, from select on.
    fn begin(&mut self, frame: &[u8], bits: usize) {
        self.device = self.device.set_s(false).device;
        for k in 0..bits {
            self.clock(bit_at(frame, k));
        }
    }

    // A whole frame.
    fn send(&mut self, frame: &[u8]) {
        self.begin(frame, frame.len().saturating_mul(8));
        self.device = self.device.set_s(true).device;
    }

    // A frame's first bits, deselected in Hold; HOLD is high again afterwards.
    fn send_in_hold(&mut self, frame: &[u8], bits: usize) {
        self.begin(frame, bits);
        self.device = self.device.set_hold(false).device;
        self.device = self.device.set_s(true).device;
        self.device = self.device.set_hold(true).device;
    }

    // The longest cycle passes.
    fn pass(&mut self) {
        let Board {
            device,
            memory,
            identification,
        } = self;
        let reading = longest_of(device.core.part);
        let stepped = read_clock(*device, reading, memory, identification);
        self.device = stepped.device;
    }
}

// A case: its name, BP0 and WEL before it, the WRITE whose cycle runs, where one does, the frame and how many of its
// bits are sent, and the cell that is shown.
#[derive(Clone, Copy)]
struct Case<'a> {
    what: &'a str,
    bp0: bool,
    wel: bool,
    running: Option<&'a [u8]>,
    frame: &'a [u8],
    bits: usize,
    cell: usize,
}

impl<'a> Case<'a> {
    // With WEL; nothing protected, and no cycle.
    fn open(what: &'a str, frame: &'a [u8], bits: usize, cell: usize) -> Case<'a> {
        Case {
            what,
            bp0: false,
            wel: true,
            running: None,
            frame,
            bits,
            cell,
        }
    }

    // At its eighth edge the cycle of a WRITE runs: what waits is left alone.
    fn in_cycle(
        what: &'a str,
        write: &'a [u8],
        frame: &'a [u8],
        bits: usize,
        cell: usize,
    ) -> Case<'a> {
        let running = Some(write);
        Case {
            what,
            bp0: false,
            wel: true,
            running,
            frame,
            bits,
            cell,
        }
    }

    fn without_wel(mut self) -> Case<'a> {
        self.wel = false;
        self
    }

    // The upper quarter is protected.
    fn with_bp0(mut self) -> Case<'a> {
        self.bp0 = true;
        self
    }
}

// One frame in Hold: what the device shows then, and a cell once the cycle is over.
fn held(to: &mut impl Write, part: u8, case: &Case) -> io::Result<()> {
    // Blank cells. Made here: a board that a function hands back is copied whole.
    let mut board = Board {
        device: Device::resting(Core::unpowered()),
        memory: [255; LARGE_SIZE],
        identification: [255; ROOM],
    };
    board.power_up(part, case.bp0);
    if case.wel {
        board.send(&[WREN]);
    }
    if let Some(write) = case.running {
        board.send(write);
    }
    board.send_in_hold(case.frame, case.bits);
    let status = board.device.status().unwrap_or(0);
    let left = board.device.core.left;
    board.pass();
    let what = case.what;
    write!(to, "{what}\t{status}\t{left}")?;
    if let Some(cell) = board.memory.get(case.cell) {
        write!(to, "\t{cell}")?;
    }
    to.write_all(b"\n")
}

// ---- the M95512: WRITE from 32 bits, a cycle of 5,000

fn small(to: &mut impl Write) -> io::Result<()> {
    let write = [WRITE, 0x00, 0x40, 0x5a, 0x5b, 0x5c, 0x5d, 0x5e];
    let first = [WRITE, 0x00, 0x40, 0x11];
    let second = [WRITE, 0x00, 0x40, 0x12];
    let below = [WRITE, 0xbf, 0xff, 0x5a];
    let inside = [WRITE, 0xc0, 0x00, 0x5a];
    let cases = [
        Case::open("WRITE, 32 bits", &write, 32, 0x40),
        Case::open("WRITE, 33 bits", &write, 33, 0x40),
        Case::open("WRITE, 40 bits", &write, 40, 0x41),
        Case::open("WRITE, 57 bits", &write, 57, 0x40),
        Case::open("WRITE, 24 bits", &write, 24, 0x40),
        Case::open("WRITE without WEL", &write, 32, 0x40).without_wel(),
        Case::open("WRITE below the block", &below, 32, 0xbfff).with_bp0(),
        Case::open("WRITE in the block", &inside, 32, 0xc000).with_bp0(),
        Case::open("WREN", &[WREN], 8, 0x40).without_wel(),
        Case::open("WRDI with WEL", &[WRDI], 8, 0x40),
        Case::open("WRSR with WEL", &[WRSR, 0x8c], 16, 0x40),
        Case::open("READ", &[READ, 0x00, 0x40, 0x00], 32, 0x40),
        Case::in_cycle("WRITE in a cycle", &first, &second, 32, 0x40),
    ];
    for case in &cases {
        held(to, M95512, case)?;
    }
    Ok(())
}

// ---- the M95M01: WRITE from 40 bits, a cycle of 4,000

fn large(to: &mut impl Write) -> io::Result<()> {
    let write = [WRITE, 0x01, 0x00, 0x40, 0x5a, 0x5b, 0x5c, 0x5d];
    let first = [WRITE, 0x01, 0x00, 0x40, 0x11];
    let second = [WRITE, 0x01, 0x00, 0x40, 0x12];
    // of the first address byte only the lowest bit counts
    let same = [WRITE, 0xff, 0x00, 0x40, 0x5a];
    let below = [WRITE, 0x01, 0x7f, 0xff, 0x5a];
    let inside = [WRITE, 0x01, 0x80, 0x00, 0x5a];
    let cases = [
        Case::open("WRITE, 40 bits", &write, 40, 0x10040),
        Case::open("WRITE, 41 bits", &write, 41, 0x10040),
        Case::open("WRITE, 48 bits", &write, 48, 0x10041),
        Case::open("WRITE, 32 bits", &write, 32, 0x10040),
        Case::open("WRITE without WEL", &write, 40, 0x10040).without_wel(),
        Case::open("WRITE at FF0040h", &same, 40, 0x10040),
        Case::open("WRITE below the block", &below, 40, 0x17fff).with_bp0(),
        Case::open("WRITE in the block", &inside, 40, 0x18000).with_bp0(),
        Case::open("WREN", &[WREN], 8, 0x10040).without_wel(),
        Case::open("WRDI with WEL", &[WRDI], 8, 0x10040),
        Case::in_cycle("WRITE in a cycle", &first, &second, 40, 0x10040),
        // Hold stops it too, which this part executes in a cycle
        Case::in_cycle("WRDI in a cycle", &first, &[WRDI], 8, 0x10040),
    ];
    for case in &cases {
        held(to, M95M01, case)?;
    }
    Ok(())
}

fn main(rt: HostRuntime) -> io::Result<()> {
    let mut out = io::writer(&rt);
    out.write_all(b"frame in Hold\tstatus\ttime left\tcell\n")?;
    small(&mut out)?;
    out.write_all(b"frame in Hold, M95M01\tstatus\ttime left\tcell\n")?;
    large(&mut out)
}
