// The sizes of the parts for the code, each once; specs/Part.antt has the rows. A number that is no part reads the
// M95512's row.
ghost use Rattle.std.specs.Prelude.{◌≡◌, ◌+◌, ◌/◌, ◌≤◌};
ghost use Rattle.codes.specs.Part.{is_part, pages, part_of, room, room_cells, room_head};
ghost use Rattle.codes.specs.Instructions.{write_bits};

// The numbers of the parts: the M95512, the M95512-D with its identification page and lock, and the M95M01 of twice the
// size.
pub const M95512: u8 = 0;

pub const M95512D: u8 = 1;

pub const M95M01: u8 = 2;

pub fn is_part(part: u8) -> bool
    ensures { result ≡ is_part part }
{
    part <= M95M01
}

// Cells of the memory, and of a page, of the largest part: the room that serves every part.
pub const LARGE_SIZE: usize = 131072;

pub const LARGE_PAGE: usize = 256;

// Address bytes, which stand after the code, of the M95512 and the M95512-D.
pub const ADDRESS_BYTES: u8 = 2;

// The first bytes of the M95M01's identification page as delivered: ST, the SPI family, 1 Mbit.
pub const MANUFACTURER: u8 = 0x20;

pub const FAMILY: u8 = 0x00;

pub const DENSITY: u8 = 0x11;

// A row of the table of parts.
#[derive(Clone, Copy)]
struct Sizes {
    // cells of the memory
    size: usize,
    // cells of a page, and of the identification page
    page: usize,
    // address bytes after the code
    address_bytes: u8,
    // where the count of whole bytes taken stays
    most: u8,
    // microseconds of the longest write cycle
    longest: u32,
    // it has an identification page and a lock
    identified: bool,
    // WRDI is executed in a cycle too
    wrdi_in_cycle: bool,
}

// The row of the M95512, which is the M95512-D's but for the identification page, and that of the M95M01.
const SMALL: Sizes = Sizes {
    size: 65536,
    page: 128,
    address_bytes: ADDRESS_BYTES,
    most: 5,
    longest: 5000,
    identified: false,
    wrdi_in_cycle: false,
};

const LARGE: Sizes = Sizes {
    size: LARGE_SIZE,
    page: LARGE_PAGE,
    address_bytes: 3,
    most: 6,
    longest: 4000,
    identified: true,
    wrdi_in_cycle: true,
};

// The row of a part's number.
fn row_of(part: u8) -> Sizes
    ensures row { (result.size ≡ (part_of part).size) × (result.page ≡ (part_of part).page)
        × (result.address_bytes ≡ (part_of part).address_bytes) × (result.most ≡ (part_of part).most)
        × (result.longest ≡ (part_of part).longest) × (result.identified ≡ (part_of part).identified)
        × (result.wrdi_in_cycle ≡ (part_of part).wrdi_in_cycle) }
    ensures sizes { (1024 ≤ result.size) × (result.size ≤ room_cells) × (128 ≤ result.page) × (result.page ≤ room) }
    ensures counts { (2 ≤ result.address_bytes) × (result.address_bytes ≤ 3) × (5 ≤ result.most)
        × (result.most ≤ 6) × (1 ≤ result.longest) × (result.longest ≤ 5000) }
{
    if part == M95M01 {
        return LARGE;
    }
    Sizes {
        identified: part == M95512D,
        ..SMALL
    }
}

// Cells of the memory.
pub fn size_of(part: u8) -> usize
    ensures value { result ≡ (part_of part).size }
    ensures lower_bound { (1024 ≤ result) × (result ≤ room_cells) }
{
    row_of(part).size
}

// Cells of a page, and of the identification page.
pub fn page_of(part: u8) -> usize
    ensures value { result ≡ (part_of part).page }
    ensures lower_bound { (128 ≤ result) × (result ≤ room) }
{
    row_of(part).page
}

// Pages of the memory.
pub fn pages_of(part: u8) -> u32
    ensures { result ≡ pages (part_of part) }
{
    (size_of(part) / page_of(part)) as u32
}

// The page that an address is in. Not by the row: each branch divides by a constant,
// which is a shift. A division by the row's page takes more than 4 times as long, measured in C.
pub fn page_number(part: u8, address: usize) -> usize
    ensures value { result ≡ address / (part_of part).page }
    ensures upper_bound { result ≤ address }
{
    if part == M95M01 {
        return address / LARGE.page;
    }
    address / SMALL.page
}

// Address bytes.
pub fn address_bytes_of(part: u8) -> u8
    ensures value { result ≡ (part_of part).address_bytes }
    ensures lower_bound { (2 ≤ result) × (result ≤ 3) }
{
    row_of(part).address_bytes
}

// The bytes before the data of a READ or a WRITE: the code and the address.
pub fn head_of(part: u8) -> u8
    ensures value { result ≡ (part_of part).address_bytes + 1 }
    ensures lower_bound { (3 ≤ result) × (result ≤ room_head) }
{
    address_bytes_of(part) + 1
}

// Bits of a WRITE's code, address and first data byte.
pub(crate) fn write_bits_of(part: u8) -> usize
    ensures { result ≡ write_bits (part_of part) }
{
    8 * (usize::from(head_of(part)) + 1)
}

// Where the count of whole bytes taken stays.
pub fn most_of(part: u8) -> u8
    ensures value { result ≡ (part_of part).most }
    ensures lower_bound { (5 ≤ result) × (result ≤ 6) }
{
    row_of(part).most
}

// Microseconds of the longest write cycle.
pub fn longest_of(part: u8) -> u32
    ensures value { result ≡ (part_of part).longest }
    ensures lower_bound { (1 ≤ result) × (result ≤ 5000) }
{
    row_of(part).longest
}

// It has an identification page and a lock.
pub fn identified(part: u8) -> bool
    ensures { result ≡ (part_of part).identified }
{
    row_of(part).identified
}

// WRDI is executed in a cycle too.
pub fn wrdi_in_cycle(part: u8) -> bool
    ensures { result ≡ (part_of part).wrdi_in_cycle }
{
    row_of(part).wrdi_in_cycle
}
