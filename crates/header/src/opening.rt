// The header's first fields: all_default to upsampling.
ghost use Rattle.std.specs.Prelude.{◌≡◌};
ghost use Rattle.bits.specs.Table.{read};
ghost use Rattle.header.specs.Opening.{opening};

use crate::Facts;
use bits::{Choice, Choices, Cursor, Read, read_bits_if, read_bool_if};
use numbers::{read_u32_if, read_u64_if};
use types::FrameFlags;

// Kinds and Bools are numbers here, as they are sent: the table of fields (`read (opening ..)`), and what is proved of each of its rows, speak of
// those.
#[derive(Clone, Copy)]
pub struct Opening {
    pub all_default: u32,
    pub frame_type: u32,
    pub encoding: u32,
    pub flags: u64,
    pub do_ycbcr: u32,
    pub jpeg0: u32,
    pub jpeg1: u32,
    pub jpeg2: u32,
    pub upsampling: u32,
}

// U32(1, 2, 4, 8)
pub const UPSAMPLINGS: Choices = Choices {
    d0: Choice { base: 1, bits: 0 },
    d1: Choice { base: 2, bits: 0 },
    d2: Choice { base: 4, bits: 0 },
    d3: Choice { base: 8, bits: 0 },
};

pub fn read_opening(s: &[u8], c: Cursor, f: Facts) -> Read<Opening>
    ensures { result ≡ read (opening f) s.now c }
{
    let all = read_bool_if(s, c, true, 1);
    let on = all.value == 0;
    let kind = read_bits_if(s, all.next, on, 2, 0);
    let encoding = read_bits_if(s, kind.next, on, 1, 0);
    let flags = read_u64_if(s, encoding.next, on, 0);
    let ycbcr = read_bool_if(s, flags.next, on && !f.xyb, 0);
    let lf = FrameFlags(flags.value).use_lf_frame();
    let jpeg = ycbcr.value == 1 && !lf;
    let j0 = read_bits_if(s, ycbcr.next, jpeg, 2, 0);
    let j1 = read_bits_if(s, j0.next, jpeg, 2, 0);
    let j2 = read_bits_if(s, j1.next, jpeg, 2, 0);
    let up = read_u32_if(s, j2.next, on && !lf, UPSAMPLINGS, 1);
    let next = up.next;
    Read {
        value: Opening {
            all_default: all.value,
            frame_type: kind.value,
            encoding: encoding.value,
            flags: flags.value,
            do_ycbcr: ycbcr.value,
            jpeg0: j0.value,
            jpeg1: j1.value,
            jpeg2: j2.value,
            upsampling: up.value,
        },
        next,
    }
}
