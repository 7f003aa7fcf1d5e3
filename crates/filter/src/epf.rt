// The edge-preserving filter: a flag and the iterations beside its settings.
ghost use Rattle.std.specs.Prelude.{◌≡◌};
ghost use Rattle.bits.specs.Table.{read};
ghost use Rattle.filter.specs.Epf.{epf_default, epf_disabled, epf_of, epf};

use crate::floats::read_float_if;
use crate::settings::{
    EpfParams, read_scale_if, read_sharp_if, read_sigma_if, scale_default, sharp_default,
    sigma_default,
};
use bits::{Cursor, Read};

// A disabled filter has values too, +0.0 (`epf_disabled`; C hands all out), so no Option.
#[derive(Clone, Copy)]
pub struct EdgePreservingFilter {
    pub enabled: bool,
    pub iters: u32,
    pub params: EpfParams,
}

// A disabled filter: no iterations, and every value is +0.0.
pub fn epf_disabled() -> EdgePreservingFilter
    ensures { result ≡ epf_disabled }
{
    let sharp_lut = [0.0f32; 8];
    let channel_scale = [0.0f32; 3];
    EdgePreservingFilter {
        enabled: false,
        iters: 0,
        params: EpfParams {
            sharp_lut,
            channel_scale,
            quant_mul: 0.0,
            pass0_sigma_scale: 0.0,
            pass2_sigma_scale: 0.0,
            border_sad_mul: 0.0,
            sigma_for_modular: 0.0,
        },
    }
}

// `EdgePreservingFilter::default()`.
pub fn epf_default() -> EdgePreservingFilter
    ensures { result ≡ epf_default }
{
    let sharp_lut = sharp_default();
    let channel_scale = scale_default();
    let sigma = sigma_default();
    EdgePreservingFilter {
        enabled: true,
        iters: 2,
        params: EpfParams {
            sharp_lut,
            channel_scale,
            quant_mul: sigma.quant_mul,
            pass0_sigma_scale: sigma.pass0_sigma_scale,
            pass2_sigma_scale: sigma.pass2_sigma_scale,
            border_sad_mul: sigma.border_sad_mul,
            sigma_for_modular: 1.0,
        },
    }
}

// Enabled where there are iterations.
fn epf_of(iters: u32, params: EpfParams) -> EdgePreservingFilter
    ensures { result ≡ epf_of iters params }
{
    let none = epf_disabled();
    if iters == 0 {
        return none;
    }
    EdgePreservingFilter {
        enabled: true,
        iters,
        params,
    }
}

// The bundle, where it is asked for; else the default.
pub fn read_epf_if(s: &[u8], c: Cursor, on: bool, modular: bool) -> Read<EdgePreservingFilter>
    ensures { result ≡ read (epf on modular) s.now c }
{
    let iters = bits::read_bits_if(s, c, on, 2, 2);
    let live = on && iters.value != 0;
    let lut = read_sharp_if(s, iters.next, live && !modular);
    let scale = read_scale_if(s, lut.next, live);
    let four = read_sigma_if(s, scale.next, live, modular);
    let own = read_float_if(s, four.next, live && modular, 15360);
    let sharp_lut = lut.value;
    let channel_scale = scale.value;
    let sigma = four.value;
    let params = EpfParams {
        sharp_lut,
        channel_scale,
        quant_mul: sigma.quant_mul,
        pass0_sigma_scale: sigma.pass0_sigma_scale,
        pass2_sigma_scale: sigma.pass2_sigma_scale,
        border_sad_mul: sigma.border_sad_mul,
        sigma_for_modular: own.value,
    };
    let value = epf_of(iters.value, params);
    let next = own.next;
    Read { value, next }
}

impl EdgePreservingFilter {
    pub fn enabled(self) -> bool
        ensures { result ≡ self.enabled }
    {
        self.enabled
    }
}
