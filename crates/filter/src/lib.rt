// The filters of a frame: Gabor and the edge-preserving filter, read as src/filter.rs does, over the bit reader.
#![tactic(auto)]

mod epf;
mod floats;
mod gabor;
mod settings;
mod weights;

ghost use Rattle.std.specs.Prelude.{◌≡◌};
ghost use Rattle.bits.specs.Table.{read};
ghost use Rattle.filter.specs.Filter.{restoration, filter_default, filter_disabled};

use bits::{Cursor, Read};
pub use epf::{EdgePreservingFilter, read_epf_if};
pub use gabor::{Gabor, read_gabor_if};
pub use settings::EpfParams;
pub use weights::is_unbalanced;

#[derive(Clone, Copy)]
pub struct RestorationFilter {
    pub gab: Gabor,
    pub epf: EdgePreservingFilter,
}

// Both default filters: what a bundle stands for that isn't sent, or is all default.
pub fn default_filter() -> RestorationFilter
    ensures { result ≡ filter_default }
{
    let gab = gabor::gabor_default();
    let epf = epf::epf_default();
    RestorationFilter { gab, epf }
}

// The bundle `RestorationFilter`, where it is asked for; else both default filters, and nothing more is looked at. `modular`: the frame's
// encoding is Modular.
pub fn read_restoration_filter_if(
    s: &[u8],
    c: Cursor,
    on: bool,
    modular: bool,
) -> Read<RestorationFilter>
    ensures { result ≡ read (restoration on modular) s.now c }
{
    let all_default = bits::read_bool_if(s, c, on, 1);
    let live = on && all_default.value == 0;
    if !live {
        let value = default_filter();
        let next = all_default.next;
        return Read { value, next };
    }
    let g = read_gabor_if(s, all_default.next, live);
    let e = read_epf_if(s, g.next, live, modular);
    let next = numbers::read_extensions_if(s, e.next, live);
    let gab = g.value;
    let epf = e.value;
    Read {
        value: RestorationFilter { gab, epf },
        next,
    }
}

// Both filters disabled: in the definitions they stand beside a refusal.
pub fn disabled_filter() -> RestorationFilter
    ensures { result ≡ filter_disabled }
{
    let gab = gabor::gabor_disabled();
    let epf = epf::epf_disabled();
    RestorationFilter { gab, epf }
}
