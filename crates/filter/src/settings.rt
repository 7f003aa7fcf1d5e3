// The settings of the edge-preserving filter, and its three groups of values, each of which may be custom.
ghost use Rattle.std.specs.Prelude.{◌≡◌};
ghost use Rattle.bits.specs.Refusals.{pick};
ghost use Rattle.bits.specs.Table.{read};
ghost use Rattle.filter.specs.Epf.{sharp_default, scale_default, sigma_default, sharp, scale, sigma, sigma_of};

use crate::floats::read_float_if;
use bits::{Cursor, Read};

#[derive(Clone, Copy)]
pub struct EpfParams {
    pub sharp_lut: [f32; 8],
    pub channel_scale: [f32; 3],
    pub quant_mul: f32,
    pub pass0_sigma_scale: f32,
    pub pass2_sigma_scale: f32,
    pub border_sad_mul: f32,
    pub sigma_for_modular: f32,
}

// The four sigma values on their way into the settings.
#[derive(Clone, Copy)]
pub struct EpfSigma {
    pub quant_mul: f32,
    pub pass0_sigma_scale: f32,
    pub pass2_sigma_scale: f32,
    pub border_sad_mul: f32,
}

// EPF_SHARP_LUT_DEFAULT.
pub fn sharp_default() -> [f32; 8]
    ensures { result ≡ sharp_default }
{
    [
        0.0,
        1.0 / 7.0,
        2.0 / 7.0,
        3.0 / 7.0,
        4.0 / 7.0,
        5.0 / 7.0,
        6.0 / 7.0,
        1.0,
    ]
}

// EPF_CHANNEL_SCALE_DEFAULT.
pub fn scale_default() -> [f32; 3]
    ensures { result ≡ scale_default }
{
    [40.0, 5.0, 3.5]
}

// `EpfSigma::default()`.
pub fn sigma_default() -> EpfSigma
    ensures { result ≡ sigma_default }
{
    EpfSigma {
        quant_mul: 0.46,
        pass0_sigma_scale: 0.9,
        pass2_sigma_scale: 6.5,
        border_sad_mul: 2.0 / 3.0,
    }
}

// A group's own values, or the usual ones.
fn chosen<T: Copy>(own: bool, values: T, usual: T) -> T
    ensures { result ≡ pick own values usual }
{
    if own { values } else { usual }
}

// Custom sigma values; in a Modular frame quant_mul stays the default.
fn sigma_of(own: bool, modular: bool, q: f32, a: f32, b: f32, d: f32) -> EpfSigma
    ensures { result ≡ sigma_of own modular q a b d }
{
    let other = sigma_default();
    if !own {
        return other;
    }
    let quant_mul = if modular { other.quant_mul } else { q };
    EpfSigma {
        quant_mul,
        pass0_sigma_scale: a,
        pass2_sigma_scale: b,
        border_sad_mul: d,
    }
}

// The sharpness values. Written out: eight reads and the array that they make, against a loop with its invariant and a cursor, which is no plainer.
pub fn read_sharp_if(s: &[u8], c: Cursor, on: bool) -> Read<[f32; 8]>
    ensures { result ≡ read (sharp on) s.now c }
{
    let flag = bits::read_bool_if(s, c, on, 0);
    let own = flag.value == 1;
    let x0 = read_float_if(s, flag.next, own, 0);
    let x1 = read_float_if(s, x0.next, own, 0);
    let x2 = read_float_if(s, x1.next, own, 0);
    let x3 = read_float_if(s, x2.next, own, 0);
    let x4 = read_float_if(s, x3.next, own, 0);
    let x5 = read_float_if(s, x4.next, own, 0);
    let x6 = read_float_if(s, x5.next, own, 0);
    let x7 = read_float_if(s, x6.next, own, 0);
    let values = [
        x0.value, x1.value, x2.value, x3.value, x4.value, x5.value, x6.value, x7.value,
    ];
    let value = chosen(own, values, sharp_default());
    let next = x7.next;
    Read { value, next }
}

// The channel scales, and the 32 bits after them that are ignored.
pub fn read_scale_if(s: &[u8], c: Cursor, on: bool) -> Read<[f32; 3]>
    ensures { result ≡ read (scale on) s.now c }
{
    let flag = bits::read_bool_if(s, c, on, 0);
    let own = flag.value == 1;
    let x0 = read_float_if(s, flag.next, own, 0);
    let x1 = read_float_if(s, x0.next, own, 0);
    let x2 = read_float_if(s, x1.next, own, 0);
    let ignored = bits::read_bits_if(s, x2.next, own, 32, 0);
    let values = [x0.value, x1.value, x2.value];
    let value = chosen(own, values, scale_default());
    let next = ignored.next;
    Read { value, next }
}

// The sigma values.
pub fn read_sigma_if(s: &[u8], c: Cursor, on: bool, modular: bool) -> Read<EpfSigma>
    ensures { result ≡ read (sigma on modular) s.now c }
{
    let flag = bits::read_bool_if(s, c, on, 0);
    let own = flag.value == 1;
    let quant = own && !modular;
    let q = read_float_if(s, flag.next, quant, 0);
    let a = read_float_if(s, q.next, own, 0);
    let b = read_float_if(s, a.next, own, 0);
    let d = read_float_if(s, b.next, own, 0);
    let value = sigma_of(own, modular, q.value, a.value, b.value, d.value);
    let next = d.next;
    Read { value, next }
}
