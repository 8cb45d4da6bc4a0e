// Images as Intel HEX: all cells of a memory as a text, and a text's cells into a memory. An address of a text has 16
// bits, so the images are those of the M95512 and the M95512-D.
//
// Public calls, each for every input: export, import; bad_line, where a text is not good.
#![tactic(auto)]

ghost use Rattle.std.specs.Prelude.{◌≡◌};
ghost use Rattle.intel_hex.specs.declared.HexError.TheVariants.{Refused};
ghost use Rattle.intel_hex.specs.Numbers.{hex_error_number};

use codes::{Numbered, Refusal};

mod public;
mod reading;
mod storing;
mod writing;

pub use public::{bad_line, export, import};

// Why export or import did nothing. A text that is not good is not taken, nor is any while a cycle runs; of a part of
// another size, the M95M01, no image is taken either way.
#[derive(Clone, Copy, PartialEq, Eq)]
pub enum HexError {
    NotTaken,
    Refused(Refusal),
}

impl From<Refusal> for HexError {
    ghost from_gives = { λ refusal r. r ≡ Refused refusal };

    fn from(refusal: Refusal) -> HexError {
        HexError::Refused(refusal)
    }
}

// Document 02's number: 12 for what is not taken, else the refusal's.
impl Numbered for HexError {
    ghost number = { hex_error_number };

    fn number(self) -> u32 {
        match self {
            HexError::NotTaken => 12,
            HexError::Refused(refusal) => refusal.number(),
        }
    }
}

// Cells of an image, which are the M95512's. A constant, since programs make arrays of it.
pub const IMAGE_SIZE: usize = 65536;

// Bytes of an exported text: 4,096 lines of 44, and the closing one of 12.
pub const TEXT_SIZE: usize = 180236;
