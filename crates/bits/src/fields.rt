// Fields of up to 32 bits, Bool, and padding.
ghost use Rattle.std.specs.Prelude.{◌≡◌, true, not, ◌&&◌};
ghost use Rattle.bits.specs.Refusals.{clear};
ghost use Rattle.bits.specs.Codec.{u, bool, padding, field};

use crate::pieces::{cut_at, stop, take};
use crate::{Cursor, Read, begin, kept};

// Whether a field is passed by: it is not asked for, or something was refused before it.
pub fn idle(c: Cursor, on: bool) -> bool
    ensures { result ≡ not (on && clear c) }
{
    !on || c.fault.number != 0
}

// u(n), n up to 32, where it is asked for.
pub fn read_bits_if(s: &[u8], c: Cursor, on: bool, n: u32, default: u32) -> Read<u32>
    ensures { result ≡ field s.now on (u n) default c }
{
    if idle(c, on) {
        return Read {
            value: default,
            next: kept(c),
        };
    }
    let at = c.at;
    let Some(x) = take(s, at, n) else {
        return cut_at(s, at, at, n);
    };
    Read {
        value: x.value,
        next: begin(x.at),
    }
}

// A public name of its own, as `read_bool` is; the same reading, asked for.
pub fn read_bits(s: &[u8], c: Cursor, n: u32) -> Read<u32>
    ensures { result ≡ field s.now true (u n) 0 c }
{
    read_bits_if(s, c, true, n, 0)
}

// A Bool, as 0 or 1, where it is asked for. A number, no bool: the promise is for a default of any number.
pub fn read_bool_if(s: &[u8], c: Cursor, on: bool, default: u32) -> Read<u32>
    ensures { result ≡ field s.now on bool default c }
{
    read_bits_if(s, c, on, 1, default)
}

pub fn read_bool(s: &[u8], c: Cursor) -> Read<u32>
    ensures { result ≡ field s.now true bool 0 c }
{
    read_bits_if(s, c, true, 1, 0)
}

// Zero bits up to the next byte boundary.
pub fn zero_pad_to_byte(s: &[u8], c: Cursor) -> Cursor
    ensures { result ≡ (field s.now true padding 0 c).next }
{
    if idle(c, true) {
        return kept(c);
    }
    let at = c.at;
    let n = ((8 - at % 8) % 8) as u32;
    let Some(x) = take(s, at, n) else {
        return cut_at(s, at, at, n).next;
    };
    if x.value == 0 {
        begin(x.at)
    } else {
        stop(12, at)
    }
}
