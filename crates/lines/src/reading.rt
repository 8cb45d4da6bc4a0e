// The line in hand: what the next byte makes of it, and its ranges.
ghost use Rattle.std.specs.Prelude.{◌≡◌, true};
ghost use Rattle.laws.specs.Pick.{pick};
ghost use Rattle.lines.specs.Reading.{kind_named, event_number, is_digit, line_at, stopped, named, tabbed, begun};
ghost use Rattle.lines.specs.Reading.{closed, longer, counted, next, closes, ended, line_fits, hand_fits};
ghost use Rattle.lines.specs.Reading.{value_fits, none_fits};

use crate::{Line, MOST_LINES, READING};

// The kind of event that a name gives, None for no name.
#[tactic(auto, unfolding(laws::specs::Pick::pick, crate::specs::Reading::kind_of))]
pub(crate) fn kind_of(name: u8) -> Option<u8>
    ensures { result ≡ kind_named name }
{
    match name {
        b'S' => Some(0),
        b'C' => Some(1),
        b'D' => Some(2),
        b'W' => Some(3),
        b'H' => Some(4),
        b'T' => Some(READING),
        _ => None,
    }
}

// The number of an event: the kind above the low 32 bits, which are the level or the reading.
pub(crate) fn event_number(kind: u8, value: u32) -> u64
    ensures { result ≡ event_number kind value }
{
    u64::from(kind) * (1 << 32) + u64::from(value)
}

impl Line {
    fn at(self, place: u8, kind: u8, value: u32) -> Line
        ensures { result ≡ line_at self.whole place kind value }
    {
        Line {
            whole: self.whole,
            place,
            kind,
            value,
        }
    }

    fn stopped(self) -> Line
        ensures { result ≡ stopped self.whole }
    {
        self.at(5, 0, 0)
    }

    fn named(self, byte: u8) -> Line
        ensures { result ≡ named self byte }
    {
        match kind_of(byte) {
            Some(kind) if self.whole < MOST_LINES => self.at(1, kind, 0),
            _ => self.stopped(),
        }
    }

    fn tabbed(self, byte: u8) -> Line
        ensures { result ≡ tabbed self byte }
    {
        match byte {
            b'\t' => self.at(2, self.kind, 0),
            _ => self.stopped(),
        }
    }

    fn begun(self, byte: u8) -> Line
        ensures { result ≡ begun self byte }
    {
        match byte {
            b'0' => self.at(3, self.kind, 0),
            b'1' if self.kind < READING => self.at(3, self.kind, 1),
            b'1'..=b'9' if READING <= self.kind => self.at(4, self.kind, u32::from(byte - b'0')),
            _ => self.stopped(),
        }
    }

    fn closed(self, byte: u8) -> Line
        ensures { result ≡ closed self byte }
    {
        match byte {
            b'\n' => self.past_line(),
            _ => self.stopped(),
        }
    }

    // With one more digit, unless the reading grows too large.
    fn longer(self, byte: u8) -> Line
        requires { is_digit byte ≡ true }
        ensures { result ≡ longer self byte }
    {
        let value = u64::from(self.value) * 10 + u64::from(byte - b'0');
        match u32::try_from(value) {
            Ok(value) => self.at(4, self.kind, value),
            Err(_) => self.stopped(),
        }
    }

    fn counted(self, byte: u8) -> Line
        ensures { result ≡ counted self byte }
    {
        if byte.is_ascii_digit() {
            return self.longer(byte);
        }
        self.closed(byte)
    }

    // What the next byte makes of the line.
    #[tactic(auto, unfolding(laws::specs::Pick::pick, crate::specs::Reading::next))]
    pub fn next(self, byte: u8) -> Line
        ensures { result ≡ next self byte }
    {
        match self.place {
            0 => self.named(byte),
            1 => self.tabbed(byte),
            2 => self.begun(byte),
            3 => self.closed(byte),
            4 => self.counted(byte),
            _ => self,
        }
    }

    // How many lines the byte ends: one, or none. A number, since it is added to a count.
    pub fn closing(self, byte: u8) -> usize
        ensures { result ≡ pick (closes self byte) 1 0 }
    {
        usize::from(byte == b'\n' && (self.place == 3 || self.place == 4))
    }

    // What the line says, where its value is whole.
    pub fn event(self) -> u64
        ensures { result ≡ event_number self.kind self.value }
    {
        event_number(self.kind, self.value)
    }
}

// ---- the ranges of the line in hand

impl Line {
    fn value_fits(self) -> bool
        ensures { result ≡ value_fits self }
    {
        match self.place {
            0..=2 => self.value == 0,
            3 => self.value <= 1,
            _ => self.kind == READING,
        }
    }

    fn hand_fits(self) -> bool
        ensures { result ≡ hand_fits self }
    {
        self.whole < MOST_LINES && self.kind <= READING && self.value_fits()
    }

    fn none_fits(self) -> bool
        ensures { result ≡ none_fits self }
    {
        self.whole <= MOST_LINES && self.kind == 0 && self.value == 0
    }

    // Is it inside its ranges, for every line in hand.
    #[tactic(auto, unfolding(laws::specs::Pick::pick, crate::specs::Reading::line_fits))]
    pub fn fits(self) -> bool
        ensures { result ≡ line_fits self }
    {
        match self.place {
            0 | 5 => self.none_fits(),
            1..=4 => self.hand_fits(),
            _ => false,
        }
    }

    // The end of the text.
    #[tactic(auto, unfolding(laws::specs::Pick::pick, crate::specs::Reading::ended))]
    pub fn ended(self) -> Line
        ensures { result ≡ ended self }
    {
        if self.place == 0 {
            return self;
        }
        self.stopped()
    }
}
