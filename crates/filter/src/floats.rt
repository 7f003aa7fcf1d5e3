// An f16 read as the f32 that it stands for.
ghost use Rattle.std.specs.Prelude.{◌≡◌};
ghost use Rattle.bits.specs.Codec.{f16, field};
ghost use Rattle.filter.specs.Private.{float_read};

use bits::{Cursor, Read};

// An f16 where it is asked for; else the f16 whose pattern is the default.
pub fn read_float_if(s: &[u8], c: Cursor, on: bool, default: u32) -> Read<f32>
    ensures { result ≡ float_read (field s.now on f16 default c) }
{
    let h = numbers::read_f16_if(s, c, on, default);
    let value = numbers::f16_to_f32(h.value);
    let next = h.next;
    Read { value, next }
}
