// A list of events at once, with Q after each: the pin model for long traces.
//
// Public call, for every input: play.
#![tactic(auto)]

mod fronts;
mod listed;
mod stretches;
mod ways;

pub use listed::play;

// All of a device but the bytes it latches and its core. It repeats the fields of Pins and Frame for speed
// (docs/SPEED.md): most events move a few of these numbers, and no record is copied for them.
#[derive(Clone, Copy)]
pub(crate) struct Front {
    pub s: u8,
    pub c: u8,
    pub d: u8,
    pub w: u8,
    pub hold: u8,
    pub held: u8,
    pub taken: u8,
    pub bits: u8,
    pub partial: u8,
    pub code: u8,
    pub ran: u8,
    pub value: u8,
    pub out: u8,
    pub shown: u8,
    pub address: u32,
}

// What an event moves. A byte is whole where `taken` stands without bits.
#[derive(Clone, Copy)]
pub(crate) enum Way {
    // D
    Data(u8),
    // W or HOLD, and held
    Set {
        w: u8,
        hold: u8,
        held: u8,
    },
    // C rises: a bit of a byte, the code, an address byte, the WRSR's byte or the lock's, or a byte that nothing keeps
    Rise {
        taken: u8,
        bits: u8,
        partial: u8,
        code: u8,
        ran: u8,
        value: u8,
        address: u32,
    },
    // C rises: a data byte of a WRITE or of an 82h for the page, with the address of the next
    Latched {
        taken: u8,
        byte: u8,
        address: u32,
    },
    // C falls: the same bit, the next one, or the next byte
    Fall {
        held: u8,
        out: u8,
        shown: u8,
        address: u32,
    },
    // S moves, at most WEL beside it, and no frame is in hand: S, held and WEL
    Clear(u8, u8, u8),
    // time passes, and no cycle ends
    Pass {
        reading: u32,
        left: u32,
    },
    // an event that moves more than this
    Whole,
}

// What an event moves within a byte.
#[derive(Clone, Copy)]
pub(crate) enum Move {
    // D
    Data(u8),
    // C rises: the bits taken
    Bit { bits: u8, partial: u8 },
    // C falls: the bits shown
    Shown(u8),
    // an event that moves something else
    Other,
}

// Where a stretch of such events ended, at event i, and what Q shows there.
#[derive(Clone, Copy)]
pub(crate) struct Stretch {
    pub front: Front,
    pub q: u8,
    pub i: usize,
}
