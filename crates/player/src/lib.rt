// The player of a trace text: whether its header is out, the line in hand, and the device.
//
// Public calls, each for every input: start, memory and identification, what a text starts from; in_ranges, of a
// player. The text is taken by trace.
#![tactic(auto)]

ghost use Rattle.std.specs.Prelude.{◌≡◌, ◌++◌, ℕ, ◌-◌, length, replicate, take};
ghost use Rattle.codes.specs.Part.{m95m01, part_of, room};
ghost use Rattle.chip.specs.Power.{delivered_memory, delivered_identification};
ghost use Rattle.player.specs.Players.{start_player, head_fits, player_fits};

use chip::Core;
use codes::{DENSITY, FAMILY, LARGE_SIZE, M95M01, MANUFACTURER};
use latch::ROOM;
use lines::Line;
use pins::Device;

// A text in hand: whether its header is out, the line in hand, and the device after the last whole line. The flag stays
// a number, 0 or 1: `feed` refuses a player outside its ranges, and a narrower type would ask more of its callers.
#[derive(Clone, Copy)]
pub struct Player {
    pub headed: u8,
    pub line: Line,
    pub device: Device,
}

// Before the first byte of a text, on a part as delivered: 1 is the M95512-D, 2 the M95M01, every other number the
// M95512. Every cell of its memory is blank, and so many are counted.
pub fn start(part: u8) -> Player
    ensures { result ≡ start_player part }
{
    Player {
        headed: 0,
        line: Line {
            whole: 0,
            place: 0,
            kind: 0,
            value: 0,
        },
        device: Device::resting(Core::delivered(part)),
    }
}

// The memory as delivered, every byte FFh: of any part, as many of these cells as it has.
pub fn memory() -> [u8; LARGE_SIZE]
    ensures value { result ≡ delivered_memory m95m01 }
    ensures by_index { (n : ℕ) → take (part_of n).size result ≡ delivered_memory (part_of n) }
{
    [255; LARGE_SIZE]
}

// The identification page as delivered: as many of these cells as the part's page has.
pub fn identification(part: u8) -> [u8; ROOM]
    ensures value { result ≡ (part_of part).identity ++ replicate (room - length (part_of part).identity) 0xff }
    ensures as_delivered { take (part_of part).page result ≡ delivered_identification (part_of part) }
{
    let mut cells = [255; ROOM];
    if part == M95M01 {
        cells[0] = MANUFACTURER;
        cells[1] = FAMILY;
        cells[2] = DENSITY;
    }
    cells
}

impl Player {
    // Whether the header is out wherever a byte was taken.
    fn head_fits(self) -> bool
        ensures { result ≡ head_fits self }
    {
        self.headed <= 1 && (self.headed == 1 || self.line.whole == 0 && self.line.place == 0)
    }

    // All the ranges of a player.
    #[tactic(auto, unfolding(crate::specs::Players::player_fits))]
    pub fn in_ranges(self) -> bool
        ensures { result ≡ player_fits self }
    {
        self.head_fits() && self.line.fits() && self.device.in_ranges()
    }
}
