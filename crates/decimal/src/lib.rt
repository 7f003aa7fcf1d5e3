// Numbers as text: decimal digits with no sign and no zero in front. What is written reads back as the same number, and a text that
// reads as a number is the one that is written for it.
#![tactic(auto)]

ghost use Rattle.std.specs.Prelude.{◌≡◌, ◌+◌, ◌*◌, ◌-◌, ◌<◌, leb, drop};
ghost use Rattle.decimal.specs.Decimal.{digits_of, told, parsed, leads};
ghost use Rattle.decimal.specs.UpTo.{find_at, number_at};

// A number that stood within a text, where one did, and the index behind the byte that ended it: told also where the number is bad.
#[derive(Clone, Copy, Debug, PartialEq, Eq)]
pub struct Step {
    pub number: Option<u64>,
    pub next: usize,
}

// The digits of a number: the text begins at start and runs to the end; the bytes before it are 0. Without a heap they are lent from here.
#[derive(Clone, Copy, Debug, PartialEq, Eq)]
pub struct Digits {
    pub bytes: [u8; 20],
    pub start: usize,
}

impl Digits {
    // The text alone.
    pub fn text(&self) -> &[u8]
        ensures { result.now ≡ drop self.now.start self.now.bytes }
    {
        &self.bytes[self.start.min(20)..]
    }
}

// Not empty, and no zero in front of other digits.
fn leads(s: &[u8]) -> bool
    ensures { result ≡ leads s.now }
{
    match s {
        [] => false,
        [_] => true,
        [first, ..] => *first != b'0',
    }
}

// Whether a number with one digit more is still within the limit.
fn fits(v: u64, d: u64, limit: u64) -> bool
    requires { d < 10 }
    ensures { result ≡ leb (v * 10 + d) limit }
{
    if limit < d {
        return false;
    }
    v <= (limit - d) / 10
}

// Reads a whole text as a number of at most limit: digits alone, no zero in front of others, no text left over. Not `parse`, which takes a sign and
// zeros in front: what is written has to read back.
pub fn read_number(s: &[u8], limit: u64) -> Option<u64>
    ensures { result ≡ told (parsed limit s.now) }
{
    if !leads(s) {
        return None;
    }
    let mut v: u64 = 0;
    for &b in s {
        if !b.is_ascii_digit() {
            return None;
        }
        let d = u64::from(b - b'0');
        if !fits(v, d, limit) {
            return None;
        }
        v = v * 10 + d;
    }
    Some(v)
}

// The index of the first such byte from an index on: the text's length where there is none, and an index past the end as it is.
pub fn find(s: &[u8], at: usize, stop: u8) -> usize
    ensures { result ≡ find_at s.now at stop }
{
    for i in at..s.len() {
        if s[i] == stop {
            return i;
        }
    }
    at.max(s.len())
}

// The number of at most limit that stands from an index on, up to the byte that has to end it.
pub fn number_at(s: &[u8], at: usize, stop: u8, limit: u64) -> Step
    ensures { result ≡ number_at s.now at stop limit }
{
    let end = find(s, at, stop);
    if s.len() <= end {
        return Step {
            number: None,
            next: end,
        };
    }
    let number = read_number(&s[at..end], limit);
    Step {
        number,
        next: end + 1,
    }
}

// The byte of a digit.
fn glyph(d: u64) -> u8
    requires { d < 10 }
    ensures { result ≡ 48 + d }
{
    b'0' + d as u8
}

// A number's decimal digits, by hand: the promise is of each byte (`digits_of`), and there is no writer here.
pub fn write_number(n: u64) -> Digits
    ensures { result ≡ digits_of n }
{
    let mut bytes = [0u8; 20];
    let mut rest = n;
    // No `for` over the places: the index goes down with the digits, and it is answered.
    let mut i: usize = 20;
    while 10 <= rest {
        i -= 1;
        bytes[i] = glyph(rest % 10);
        rest /= 10;
    }
    i -= 1;
    bytes[i] = glyph(rest);
    Digits { bytes, start: i }
}
