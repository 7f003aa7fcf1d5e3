// Bits of the lent bytes, and a piece of a field: so many bits at a place, if they are there.
ghost use Rattle.std.specs.Prelude.{◌≡◌, ◌+◌, nat_le};
ghost use Rattle.bits.specs.Bits.{bit_count, there, ahead};
ghost use Rattle.bits.specs.Steps.{stopped, refused_at, cut, cut_at, piece};
ghost use Rattle.bits.specs.Extensions.{whole};

use crate::window::{look_ahead, low_bits};
use crate::{Cursor, Read, Refusal, Sum, refused};

// So many bits of a field: their value, and the place after them.
#[derive(Clone, Copy)]
pub struct Piece {
    pub value: u32,
    pub at: u64,
}

// How many bits may be read.
pub fn bit_count(s: &[u8]) -> u64
    ensures { result ≡ bit_count s.now }
{
    if s.len() < 16777216 {
        (s.len() as u64) * 8
    } else {
        134217728
    }
}

// Whether p + n is within them.
pub fn reaches(s: &[u8], p: u64, n: u32) -> bool
    ensures { result ≡ nat_le (p + n) (bit_count s.now) }
{
    let end = bit_count(s);
    if end < p {
        return false;
    }
    (n as u64) <= end - p
}

// Whether a piece of n bits is there from p on, given whether eight bytes are.
fn is_there(s: &[u8], p: u64, n: u32, whole: bool) -> bool
    requires { whole ≡ (ahead s.now p).whole }
    ensures { result ≡ there s.now p n }
{
    n <= 32 && (whole || reaches(s, p, n))
}

// The n bits from p on, if they are there.
pub fn take(s: &[u8], p: u64, n: u32) -> Option<Piece>
    ensures { result ≡ piece s.now p n }
{
    let a = look_ahead(s, p);
    if !is_there(s, p, n, a.whole) {
        return None;
    }
    let value = low_bits(a.bits, n);
    let at = p + (n as u64);
    Some(Piece { value, at })
}

// A field that begins at p is refused there.
pub fn stop(number: u32, p: u64) -> Cursor
    ensures { result ≡ stopped number p }
{
    let fault = refused(number, p);
    Cursor { at: p, fault }
}

pub fn refused_at(number: u32, p: u64) -> Read<u32>
    ensures { result ≡ refused_at number p }
{
    Read {
        value: 0,
        next: stop(number, p),
    }
}

// 4 of a field that begins at p: its piece of n bits from q on is cut (both places, as `run` and `cut` of specs/Steps.antt have them). The one place
// that makes this refusal.
pub fn cut(s: &[u8], p: u64, q: u64, n: Sum) -> Refusal
    ensures { result ≡ cut s.now p (q + whole n) }
{
    refused(4, p)
}

pub fn stop_cut(s: &[u8], p: u64, q: u64, n: Sum) -> Cursor
    ensures { result ≡ record { at = p; fault = cut s.now p (q + whole n) } }
{
    let fault = cut(s, p, q, n);
    Cursor { at: p, fault }
}

// The same of a piece that a field knows, as the field's answer.
pub fn cut_at(s: &[u8], p: u64, q: u64, n: u32) -> Read<u32>
    ensures { result ≡ cut_at s.now p (q + n) }
{
    let next = stop_cut(
        s,
        p,
        q,
        Sum {
            high: 0,
            low: n as u64,
        },
    );
    Read { value: 0, next }
}
