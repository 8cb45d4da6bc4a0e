// Random frames: mostly one of the eight instructions, with the count of bits that it asks.
ghost use Rattle.std.specs.Prelude.{◌≤◌};

use crate::chance::Chance;
use crate::schedules::Schedule;
use chip::Core;
use codes::{
    RDID, RDSR, READ, WRDI, WREN, WRID, WRITE, WRSR, address_bytes_of, head_of, identified, page_of,
};

// The bytes of a frame, and of its output.
pub type Bytes = [u8; 65536];

// The bits of a WRITE of one byte, and of a lock.
pub fn one_byte(part: u8) -> usize
    ensures { result ≤ 40 }
{
    8 * (usize::from(head_of(part)) + 1)
}

// The bits of a WRITE of a whole page.
pub fn whole_page(part: u8) -> usize {
    8 * (usize::from(head_of(part)) + page_of(part))
}

// One of the eight, or sometimes any byte.
fn any_code(chance: &mut Chance) -> u8 {
    match chance.below(22) {
        0..=2 => WREN,
        3 => WRDI,
        4..=6 => RDSR,
        7..=8 => WRSR,
        9..=13 => READ,
        14..=17 => WRITE,
        18 => RDID,
        19 => WRID,
        _ => chance.byte(),
    }
}

// Often what brings a write on: WREN where WEL is 0, else WRITE or WRSR.
fn memory_code(wel: bool, chance: &mut Chance) -> u8 {
    match chance.below(20) {
        0..=9 => any_code(chance),
        _ if !wel => WREN,
        10..=17 => WRITE,
        _ => WRSR,
    }
}

// 82h or 83h, and what brings 82h on.
fn identification_code(wel: bool, chance: &mut Chance) -> u8 {
    match chance.below(8) {
        0..=1 => RDID,
        2 => WRID,
        _ if wel => WRID,
        _ => WREN,
    }
}

// The part's code: in a cycle often WRDI or RDSR; of a part with an identification page often one for it.
fn code(before: Core, chance: &mut Chance) -> u8 {
    let running = before.left > 0;
    let wel = before.wel == 1;
    let r = chance.below(100);
    if running && r < 20 {
        return WRDI;
    }
    if running && r < 50 {
        return RDSR;
    }
    let asks = chance.percent(50);
    if asks && identified(before.part) {
        return identification_code(wel, chance);
    }
    memory_code(wel, chance)
}

// Around the bytes of a lock, four or five: these in most frames.
fn around_lock(part: u8, chance: &mut Chance) -> u64
    ensures { result ≤ 12 }
{
    let head = u64::from(head_of(part));
    match chance.below(20) {
        0..=1 => head,
        2..=13 => head + 1,
        14..=15 => head + 2,
        _ => 6 + chance.below(7),
    }
}

// As many bytes as the instruction asks.
fn asked(part: u8, code: u8, chance: &mut Chance) -> u64
    ensures { result ≤ 12 }
{
    match code {
        WREN | WRDI => 1,
        WRSR => 2,
        WRID => around_lock(part, chance),
        _ => 4 + chance.below(9),
    }
}

// How many bytes: as asked, any few, a page and more, rarely many.
fn length(part: u8, code: u8, chance: &mut Chance) -> usize
    ensures { result ≤ 65536 }
{
    let r = chance.below(1000);
    if r < 820 {
        return asked(part, code, chance) as usize;
    }
    let any = chance.below(65536) as usize;
    match r {
        820..=929 => any % 13,
        930..=996 => page_of(part) - 8 + any % 40,
        997..=998 => any % 2000,
        _ => any % 30000,
    }
}

// The count of bits: the last byte mostly whole.
pub fn bits(length: usize, chance: &mut Chance) -> usize
    requires { length ≤ 65536 }
{
    if length == 0 {
        return 0;
    }
    if chance.percent(80) {
        return 8 * length;
    }
    8 * length - chance.below(8) as usize
}

// The count of a frame that is deselected in Hold: often a WRITE's of one byte, one bit more, or two bytes.
pub fn bits_in_hold(part: u8, length: usize, chance: &mut Chance) -> usize
    requires { length ≤ 65536 }
{
    match chance.below(5) {
        0 => one_byte(part),
        1 => one_byte(part) + 1,
        2 => one_byte(part) + 8,
        _ => bits(length, chance),
    }
}

// An address of the largest part, of which a smaller one takes the low 16 bits. Often around the edge of a page, a
// quarter or the memory, or in one of a few pages, so that reads meet writes.
fn address(chance: &mut Chance) -> u32
    ensures { result ≤ 131071 }
{
    let r = chance.below(10);
    let near = 131068 + chance.below(8);
    let any = chance.below(131072);
    let to = match r {
        0..=2 => (any / 16384 * 16384 + near) % 131072,
        3..=5 => (any / 128 * 128 + near) % 131072,
        6..=7 => any / 65536 * 65536 + any % 512,
        _ => any,
    };
    to as u32
}

// An address after the code. The upper seven bits of the first of three bytes are any. Bit 10 of the address picks page
// or lock: of 82h and 83h it is 0 or 1 by chance.
fn put_address(part: u8, code: u8, bytes: &mut Bytes, chance: &mut Chance) {
    let [_, upper, high, low] = address(chance).to_be_bytes();
    let flips = chance.percent(50);
    let high = if flips && (code == WRID || code == RDID) {
        high ^ 4
    } else {
        high
    };
    if address_bytes_of(part) == 3 {
        bytes[1] = upper | chance.byte() & 0xfe;
        bytes[2] = high;
        bytes[3] = low;
        return;
    }
    bytes[1] = high;
    bytes[2] = low;
}

// A frame: its bytes, how many of its bits are sent, and how it is drawn.
#[derive(Clone, Copy)]
pub struct Frame<'a> {
    pub bytes: &'a Bytes,
    pub bits: usize,
    pub schedule: Schedule,
}

// What is counted of a frame: its instruction byte, its address and its count of bits.
#[derive(Clone, Copy)]
pub struct Head {
    pub code: u8,
    pub address: u32,
    pub bits: usize,
}

impl Head {
    // The address is the one after the code, as the part takes it.
    pub fn of(part: u8, bytes: &Bytes, bits: usize) -> Head {
        let address = if address_bytes_of(part) == 3 {
            u32::from_be_bytes([0, bytes[1] & 1, bytes[2], bytes[3]])
        } else {
            u32::from_be_bytes([0, 0, bytes[1], bytes[2]])
        };
        Head {
            code: bytes[0],
            address,
            bits,
        }
    }
}

// A frame's bytes, from the record before it, and how many: the instruction byte, an address, then any.
pub fn compose(before: Core, bytes: &mut Bytes, chance: &mut Chance) -> usize
    ensures { result ≤ 65536 }
{
    let code = code(before, chance);
    let n = length(before.part, code, chance);
    bytes[..n].fill_with(|| chance.byte());
    put_address(before.part, code, bytes, chance);
    bytes[0] = code;
    n
}
