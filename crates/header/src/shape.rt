// The group size to the frame's size, and the bundle of passes.
ghost use Rattle.std.specs.Prelude.{◌≡◌};
ghost use Rattle.bits.specs.Table.{read};
ghost use Rattle.header.specs.Shape.{passes, scales, placement};

use crate::Facts;
use crate::arrays::{Bits, read_array};
use crate::opening::{Opening, UPSAMPLINGS};
use bits::{Choice, Choices, Cursor, Read, read_bits_if, read_bool_if};
use numbers::read_u32_if;

// Arrays of the most there can be: no heap, and C hands all their words out (12 to 32).
#[derive(Clone, Copy)]
pub struct Passes {
    pub num_passes: u32,
    pub num_ds: u32,
    pub shift: [u32; 10],
    pub downsample: [u32; 4],
    pub last_pass: [u32; 4],
}

// The group size and the quantizer scales.
#[derive(Clone, Copy)]
pub struct Scales {
    pub group_size_shift: u32,
    pub x_qm_scale: u32,
    pub b_qm_scale: u32,
}

// The level of an LF frame, and where a frame lies; x0 and y0 as they are read, unsigned, and have_crop a number, as in `Opening`.
#[derive(Clone, Copy)]
pub struct Placement {
    pub lf_level: u32,
    pub have_crop: u32,
    pub x0: u32,
    pub y0: u32,
    pub width: u32,
    pub height: u32,
}

// U32(1, 2, 3, 4 + u(3))
const PASS_COUNTS: Choices = Choices {
    d0: Choice { base: 1, bits: 0 },
    d1: Choice { base: 2, bits: 0 },
    d2: Choice { base: 3, bits: 0 },
    d3: Choice { base: 4, bits: 3 },
};

// U32(0, 1, 2, 3 + u(1))
const DOWNSAMPLES: Choices = Choices {
    d0: Choice { base: 0, bits: 0 },
    d1: Choice { base: 1, bits: 0 },
    d2: Choice { base: 2, bits: 0 },
    d3: Choice { base: 3, bits: 1 },
};

// U32(0, 1, 2, u(3))
const LAST_PASSES: Choices = Choices {
    d0: Choice { base: 0, bits: 0 },
    d1: Choice { base: 1, bits: 0 },
    d2: Choice { base: 2, bits: 0 },
    d3: Choice { base: 0, bits: 3 },
};

// U32(u(8), 256 + u(11), 2304 + u(14), 18688 + u(30))
const PLACES: Choices = Choices {
    d0: Choice { base: 0, bits: 8 },
    d1: Choice {
        base: 256,
        bits: 11,
    },
    d2: Choice {
        base: 2304,
        bits: 14,
    },
    d3: Choice {
        base: 18688,
        bits: 30,
    },
};

// The bundle `Passes`.
pub fn read_passes_if(s: &[u8], c: Cursor, on: bool) -> Read<Passes>
    ensures { result ≡ read (passes on) s.now c }
{
    let n = read_u32_if(s, c, on, PASS_COUNTS, 1);
    let several = n.value != 1;
    let ds = read_u32_if(s, n.next, several, DOWNSAMPLES, 0);
    let shifts = n.value.saturating_sub(1);
    let mut shift = [0u32; 10];
    let mut downsample = [0u32; 4];
    let mut last_pass = [0u32; 4];
    let a = read_array(s, ds.next, shifts, 10, Bits(2), 0, &mut shift);
    let b = read_array(s, a, ds.value, 4, UPSAMPLINGS, 0, &mut downsample);
    let next = read_array(s, b, ds.value, 4, LAST_PASSES, 0, &mut last_pass);
    Read {
        value: Passes {
            num_passes: n.value,
            num_ds: ds.value,
            shift,
            downsample,
            last_pass,
        },
        next,
    }
}

pub fn read_scales(s: &[u8], c: Cursor, f: Facts, o: Opening) -> Read<Scales>
    ensures { result ≡ read (scales f o) s.now c }
{
    let modular = o.encoding == 1;
    let xyb = f.xyb && o.encoding == 0;
    let scaled = o.all_default == 0 && xyb;
    let shift = read_bits_if(s, c, modular, 2, 1);
    let x = read_bits_if(s, shift.next, scaled, 3, if xyb { 3 } else { 2 });
    let b = read_bits_if(s, x.next, scaled, 3, 2);
    let next = b.next;
    Read {
        value: Scales {
            group_size_shift: shift.value,
            x_qm_scale: x.value,
            b_qm_scale: b.value,
        },
        next,
    }
}

pub fn read_placement(s: &[u8], c: Cursor, f: Facts, o: Opening) -> Read<Placement>
    ensures { result ≡ read (placement f o) s.now c }
{
    let is_lf = o.frame_type == 1;
    let level = read_bits_if(s, c, is_lf, 2, 0);
    let lf_level = if is_lf { level.value + 1 } else { 0 };
    let cropped = read_bool_if(s, level.next, o.all_default == 0 && !is_lf, 0);
    let crop = cropped.value == 1;
    let placed = crop && o.frame_type != 2;
    let x = read_u32_if(s, cropped.next, placed, PLACES, 0);
    let y = read_u32_if(s, x.next, placed, PLACES, 0);
    let w = read_u32_if(s, y.next, crop, PLACES, f.width);
    let h = read_u32_if(s, w.next, crop, PLACES, f.height);
    let next = h.next;
    Read {
        value: Placement {
            lf_level,
            have_crop: cropped.value,
            x0: x.value,
            y0: y.value,
            width: w.value,
            height: h.value,
        },
        next,
    }
}
