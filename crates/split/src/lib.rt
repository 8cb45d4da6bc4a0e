// The split of a run of bytes into page parts, for the driver and, through the crates split_c and bench_c, for C
// programs: how many parts a run has, and where part k, from 0, starts and how long it is. A page write stores into one
// page, so a run that crosses an edge has to go as several. The chip is the number of one of the three; any other
// number reads the M95512's sizes.
//
// Public calls, each for any four numbers: the refusal, the number of parts, the address and the length of one part.
// The refusal is 7 where the run leaves the memory or has no such part, and the other three are 0 there.
#![tactic(auto)]

ghost use Rattle.std.specs.Prelude.{◌≡◌, ◌+◌, ◌/◌, ◌≤◌};
ghost use Rattle.codes.specs.Part.{part_of, room, room_cells};
ghost use Rattle.split.specs.Split.{count, start, end, split_refusal, split_parts, split_address, split_length};

// Cells of the memory, and of a page, as addresses and lengths are compared with them.
fn size(chip: u8) -> u64
    ensures value { result ≡ (part_of chip).size }
    ensures upper_bound { result ≤ room_cells }
{
    codes::size_of(chip) as u64
}

fn page(chip: u8) -> u64
    ensures value { result ≡ (part_of chip).page }
    ensures upper_bound { result ≤ room }
{
    codes::page_of(chip) as u64
}

// The page that an address is in.
fn page_number(chip: u8, address: u64) -> u64
    ensures { result ≡ address / (part_of chip).page }
{
    codes::page_number(chip, address as usize) as u64
}

// The parts that there are: none of no data, and none of a run that leaves the memory. The sum of address and length
// is never made before it is known to fit.
fn count(chip: u8, address: u64, length: u64) -> u64
    ensures { result ≡ count (part_of chip).size (part_of chip).page address length }
{
    let size = size(chip);
    if length > size {
        return 0;
    }
    if address > size - length {
        return 0;
    }
    if length == 0 {
        return 0;
    }
    page_number(chip, address + length - 1) - page_number(chip, address) + 1
}

// The first cell of a part.
fn start(chip: u8, address: u64, part: u64) -> u64
    requires { (address ≤ room_cells) × (part ≤ room_cells) }
    ensures { result ≡ start (part_of chip).page address part }
{
    if part == 0 {
        return address;
    }
    (page_number(chip, address) + part) * page(chip)
}

// The cell past its last.
fn end(chip: u8, address: u64, length: u64, part: u64) -> u64
    requires { (address + length ≤ room_cells) × (part ≤ room_cells) }
    ensures { result ≡ end (part_of chip).page address length part }
{
    let past = address + length;
    let edge = (page_number(chip, address) + (part + 1)) * page(chip);
    past.min(edge)
}

// 7 where the run leaves the memory or has no such part, else 0. The four stay numbers, 0 where there is none: the C
// interface and `split_parts`, `split_address` and `split_length` hold them.
pub fn cartvesper_split_refusal(chip: u8, address: u64, length: u64, part: u64) -> u64
    ensures { result ≡ split_refusal (part_of chip).size (part_of chip).page address length part }
{
    if count(chip, address, length) <= part {
        return 7;
    }
    0
}

// How many page parts the run has; 0 where the refusal is 7.
pub fn cartvesper_split_parts(chip: u8, address: u64, length: u64, part: u64) -> u64
    ensures { result ≡ split_parts (part_of chip).size (part_of chip).page address length part }
{
    let parts = count(chip, address, length);
    if part < parts {
        return parts;
    }
    0
}

// Where part k starts; 0 where the refusal is 7.
pub fn cartvesper_split_address(chip: u8, address: u64, length: u64, part: u64) -> u64
    ensures { result ≡ split_address (part_of chip).size (part_of chip).page address length part }
{
    if part < count(chip, address, length) {
        return start(chip, address, part);
    }
    0
}

// How long part k is; 0 where the refusal is 7.
pub fn cartvesper_split_length(chip: u8, address: u64, length: u64, part: u64) -> u64
    ensures { result ≡ split_length (part_of chip).size (part_of chip).page address length part }
{
    if part < count(chip, address, length) {
        return end(chip, address, length, part) - start(chip, address, part);
    }
    0
}
