// The status byte, SRWD 0 0 0 BP1 BP0 WEL WIP, by shifts and masks.
ghost use Rattle.std.specs.Prelude.{◌≡◌};
ghost use Rattle.codes.specs.Status.{status_byte, bit_of, writable};

// The bits that WRSR writes: 7, 3 and 2.
pub const WRITABLE: u8 = 0x8c;

// SRWD 0 0 0 BP1 BP0 WEL WIP, high bit first.
pub fn status_byte(srwd: bool, bp1: bool, bp0: bool, wel: bool, wip: bool) -> u8
    ensures { result ≡ status_byte srwd bp1 bp0 wel wip }
{
    (srwd as u8) << 7 | (bp1 as u8) << 3 | (bp0 as u8) << 2 | (wel as u8) << 1 | wip as u8
}

// Only the writable bits of a WRSR data byte.
pub fn writable(value: u8) -> u8
    ensures { result ≡ writable value }
{
    value & WRITABLE
}

// Each of them by its name, which says more than a bit's number at each use.
pub fn srwd_of(value: u8) -> u8
    ensures { result ≡ bit_of 7 value }
{
    value >> 7
}

pub fn bp1_of(value: u8) -> u8
    ensures { result ≡ bit_of 3 value }
{
    value >> 3 & 1
}

pub fn bp0_of(value: u8) -> u8
    ensures { result ≡ bit_of 2 value }
{
    value >> 2 & 1
}

// A byte as a number of an answer.
pub fn wide(byte: u8) -> u32
    ensures { result ≡ byte }
{
    u32::from(byte)
}
