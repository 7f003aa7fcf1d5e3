// f16: read as its 16-bit pattern, and the f32 that a pattern stands for.
ghost use Rattle.std.specs.Prelude.{◌≡◌};
ghost use Rattle.bits.specs.Codec.{f16, field};
ghost use Rattle.bits.specs.Half.{half};

use bits::{Cursor, Read, begin, cut_at, idle, kept, refused_at, take};

// An f16 where it is asked for, as its pattern; exponent 31 is refused.
pub fn read_f16_if(s: &[u8], c: Cursor, on: bool, default: u32) -> Read<u32>
    ensures { result ≡ field s.now on f16 default c }
{
    if idle(c, on) {
        return Read {
            value: default,
            next: kept(c),
        };
    }
    let at = c.at;
    let Some(x) = take(s, at, 16) else {
        return cut_at(s, at, at, 16);
    };
    if (x.value >> 10) & 31 == 31 {
        refused_at(6, at)
    } else {
        Read {
            value: x.value,
            next: begin(x.at),
        }
    }
}

// The f32 of a pattern: its whole part times a power of two that carries the sign. Both factors and the product are exact.
pub fn f16_to_f32(h: u32) -> f32
    ensures { result ≡ half h }
{
    let sign = (h >> 15) & 1;
    let e = (h >> 10) & 31;
    let m = h & 1023;
    if e == 0 {
        (m as f32) * f32::from_bits((sign << 31) | (103 << 23))
    } else {
        ((1024 + m) as f32) * f32::from_bits((sign << 31) | ((e + 102) << 23))
    }
}
