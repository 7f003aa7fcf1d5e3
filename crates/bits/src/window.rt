// What lies ahead of a place, from whole bytes: eight at once where the input has eight left.
ghost use Rattle.std.specs.Prelude.{◌≡◌, ◌+◌, ◌-◌, ◌*◌, ◌/◌, ◌%◌, ◌^◌, ◌<◌, ◌≤◌, min, length};
ghost use Rattle.bits.specs.Bits.{bits_at, ahead};

// The 56 bits from a place on, zero behind the end, and whether the eight bytes that hold them may be read: then each of the 56 is there. No Option:
// the bits are used near the end too, where `whole` is false.
#[derive(Clone, Copy)]
pub struct Ahead {
    pub bits: u64,
    pub whole: bool,
}

// Eight bytes from i on, the first the lowest.
fn word(s: &[u8], i: usize) -> u64
    requires { i + 8 ≤ length s.now }
    ensures { result ≡ bits_at s.now (8 * i) 64 }
{
    let b0 = u64::from(s[i]);
    let b1 = b0 | (u64::from(s[i + 1]) << 8);
    let b2 = b1 | (u64::from(s[i + 2]) << 16);
    let b3 = b2 | (u64::from(s[i + 3]) << 24);
    let b4 = b3 | (u64::from(s[i + 4]) << 32);
    let b5 = b4 | (u64::from(s[i + 5]) << 40);
    let b6 = b5 | (u64::from(s[i + 6]) << 48);
    b6 | (u64::from(s[i + 7]) << 56)
}

// The same one after another, zeros behind the last: where fewer than eight are left, or none.
fn word_at_end(s: &[u8], i: usize) -> u64
    requires { i < 2 ^ 61 }
    ensures { result ≡ bits_at s.now (8 * i) 64 }
{
    let end = s.len().min(i + 8);
    let mut v: u64 = 0;
    for k in i..end {
        v |= u64::from(s[k]) << (8 * (k - i));
    }
    v
}

// 56 bits of a word, from bit r on.
fn part(v: u64, r: u64) -> u64
    requires { r < 64 }
    ensures { result ≡ v / 2 ^ r % 2 ^ 56 }
{
    (v >> r) & 72057594037927935
}

// From how many bytes on, the first and those after it, there are eight that may be read. None is read behind the first 16,777,216.
fn word_places(s: &[u8]) -> u64
    ensures { result ≡ min (length s.now) 16777216 - 7 }
{
    if s.len() < 8 {
        return 0;
    }
    if 16777216 < s.len() {
        return 16777209;
    }
    (s.len() - 7) as u64
}

// What lies ahead of p.
pub fn look_ahead(s: &[u8], p: u64) -> Ahead
    ensures { result ≡ ahead s.now p }
{
    let i = p >> 3;
    if i < word_places(s) {
        let w = word(s, i as usize);
        Ahead {
            bits: part(w, p & 7),
            whole: true,
        }
    } else {
        let w = word_at_end(s, i as usize);
        Ahead {
            bits: part(w, p & 7),
            whole: false,
        }
    }
}

// The lowest n bits of a number, at most 32.
pub fn low_bits(v: u64, n: u32) -> u32
    ensures { result ≡ v % 2 ^ min n 32 }
{
    let k = n.min(32);
    (v & ((1u64 << k) - 1)) as u32
}
