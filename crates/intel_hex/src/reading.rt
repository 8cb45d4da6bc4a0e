// A text read: the record at its front, and all its records.
ghost use Rattle.std.specs.Prelude.{◌≡◌, true, ◌+◌, ◌*◌, ◌<◌, ◌≤◌, length, drop};
ghost use Rattle.laws.specs.Table.{table};
ghost use Rattle.codes.specs.Part.{m95512};
ghost use Rattle.intel_hex.specs.Writing.{end_line};
ghost use Rattle.intel_hex.specs.Reading.{digit, line_byte, data_length, address_at, is_framed, is_placed, sums_up};
ghost use Rattle.intel_hex.specs.Reading.{says_record, line_length, parted, same_bytes};

use crate::IMAGE_SIZE;

// The closing line.
pub(crate) const END_LINE: [u8; 12] = *b":00000001FF\n";

// The value of a digit, 256 for none.
fn digit(byte: u8) -> u32
    ensures { (result ≡ digit byte) × (result ≤ 256) }
{
    match byte {
        b'0'..=b'9' => u32::from(byte - b'0'),
        b'A'..=b'F' => u32::from(byte - b'A') + 10,
        _ => 256,
    }
}

// The value of every byte as a digit, made once for a text and lent to all that reads it.
// Stays 256 for none: values of the type Option<u8> cost 1.4 to 2 times here.
#[derive(Clone, Copy)]
pub(crate) struct Digits {
    values: [u32; 256],
    ghost all: { values ≡ table 256 digit },
}

impl Digits {
    pub(crate) fn new() -> Digits {
        let mut values = [0u32; 256];
        for (i, value) in values.iter_mut().enumerate() {
            *value = digit(i as u8);
        }
        Digits { values }
    }

    fn value_of(&self, byte: u8) -> u32
        ensures { (result ≡ digit byte) × (result ≤ 256) }
    {
        self.values[usize::from(byte)]
    }

    // Byte i of the line at the front of a text.
    #[tactic(auto, unfolding(crate::specs::Reading::line_byte))]
    pub(crate) fn line_byte(&self, text: &[u8], i: usize) -> u32
        requires { 2 * i + 2 < length text.now }
        ensures { (result ≡ line_byte text.now i) × (result ≤ 4352) }
    {
        self.value_of(text[2 * i + 1]) * 16 + self.value_of(text[2 * i + 2])
    }

    // The address of the record at the front of a text.
    pub(crate) fn address_at(&self, text: &[u8]) -> u32
        requires { 12 ≤ length text.now }
        ensures { (result ≡ address_at text.now) × (result ≤ 1200000) }
    {
        self.line_byte(text, 1) * 256 + self.line_byte(text, 2)
    }

    fn is_placed(&self, text: &[u8], n: usize) -> bool
        requires { (n ≡ data_length text.now) × (n ≤ 255) × (12 ≤ length text.now) }
        ensures { result ≡ is_placed m95512 text.now }
    {
        self.line_byte(text, 3) == 0 && self.address_at(text) as usize + n <= IMAGE_SIZE
    }

    // Whether the first bytes of the line, so many, are all in digits and sum to 0.
    // Stays without an early return: one costs 1.25 times here.
    fn sums_up(&self, text: &[u8], count: usize) -> bool
        requires { (2 * count < length text.now) × (count ≤ 260) }
        ensures { result ≡ sums_up text.now count }
    {
        let mut all = true;
        let mut sum: u32 = 0;
        for i in 0..count {
            let value = self.line_byte(text, i);
            all &= value < 256;
            sum += value;
        }
        all && sum % 256 == 0
    }

    // Whether the text begins with the line of a good record.
    #[tactic(auto, using(crate::proofs::Fronts::too_short), unfolding(crate::specs::Reading::says_record))]
    fn says_record(&self, text: &[u8]) -> bool
        ensures { result ≡ says_record m95512 text.now }
    {
        let len = text.len();
        if len < 12 {
            return false;
        }
        let n = self.line_byte(text, 0) as usize;
        if 255 < n {
            return false;
        }
        if len < 2 * n + 12 {
            return false;
        }
        is_framed(text, n) && self.is_placed(text, n) && self.sums_up(text, n + 5)
    }

    // The length of that line.
    fn line_length(&self, text: &[u8]) -> usize
        requires { says_record m95512 text.now ≡ true }
        ensures { (result ≡ line_length text.now) × (result ≤ length text.now) }
    {
        2 * self.line_byte(text, 0) as usize + 12
    }

    // How many good records a text begins with, and the index after them.
    pub(crate) fn check(&self, text: &[u8]) -> Checked
        ensures at_in_bounds { (result.at ≤ length text.now)
            × (drop result.at text.now ≡ (parted m95512 text.now).rest) }
        ensures lines_bound { 12 * result.lines ≤ result.at }
        ensures lines_value { result.lines ≡ length (parted m95512 text.now).records }
    {
        // Stays a while: only the line itself says where the next one starts.
        let mut lines: usize = 0;
        let mut at: usize = 0;
        while self.says_record(&text[at..]) {
            lines += 1;
            at += self.line_length(&text[at..]);
        }
        Checked { lines, at }
    }
}

fn is_framed(text: &[u8], n: usize) -> bool
    requires { (n ≡ data_length text.now) × (2 * n + 12 ≤ length text.now) }
    ensures { result ≡ is_framed text.now }
{
    text[0] == b':' && text[2 * n + 11] == b'\n'
}

// How many good records a text begins with, and the index after them.
#[derive(Clone, Copy)]
pub(crate) struct Checked {
    pub(crate) lines: usize,
    pub(crate) at: usize,
}

// Whether a text is the closing line, and nothing else.
pub(crate) fn is_end(text: &[u8]) -> bool
    ensures { result ≡ same_bytes text.now end_line }
{
    text == END_LINE.as_slice()
}
