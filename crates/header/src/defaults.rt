// A header that is all default: it is one bit, and every field has its default. Nothing of it is walked through.
ghost use Rattle.std.specs.Prelude.{◌≡◌};
ghost use Rattle.header.specs.Private.{default_front, default_back, Defaulted};

use crate::Facts;
use crate::arrays::read_array;
use crate::blending::{Blending, read_extra_blending, source_decider};
use crate::closing::Closing;
use crate::entry::{HeaderRead, assemble};
use crate::opening::{Opening, UPSAMPLINGS};
use crate::parts::{Back, Front};
use crate::shape::{Passes, Placement, Scales};
use bits::{Cursor, Refusal};
use filter::{RestorationFilter, default_filter};

// all_default to the frame's size: a regular VarDCT frame of one pass and the image's size.
#[tactic(auto, unfolding(crate::specs::Private::default_front))]
fn default_front(f: Facts) -> Front
    ensures { result ≡ default_front f }
{
    let x_qm_scale = if f.xyb { 3 } else { 2 };
    let shift = [0u32; 10];
    let downsample = [0u32; 4];
    let last_pass = [0u32; 4];
    Front {
        opening: Opening {
            all_default: 1,
            frame_type: 0,
            encoding: 0,
            flags: 0,
            do_ycbcr: 0,
            jpeg0: 0,
            jpeg1: 0,
            jpeg2: 0,
            upsampling: 1,
        },
        scales: Scales {
            group_size_shift: 1,
            x_qm_scale,
            b_qm_scale: 2,
        },
        passes: Passes {
            num_passes: 1,
            num_ds: 0,
            shift,
            downsample,
            last_pass,
        },
        placement: Placement {
            lf_level: 0,
            have_crop: 0,
            x0: 0,
            y0: 0,
            width: f.width,
            height: f.height,
        },
    }
}

// Blending to the filters: Replace, the last frame, no name, both default filters.
#[tactic(auto, unfolding(crate::specs::Private::default_back))]
fn default_back() -> Back
    ensures { result ≡ default_back }
{
    let filter = default_filter();
    Back {
        blending: Blending {
            mode: 0,
            alpha_channel: 0,
            clamp: 0,
            source: 0,
        },
        closing: Closing {
            duration: 0,
            timecode: 0,
            is_last: 1,
            save_as_reference: 0,
            save_before_ct: 0,
            name_length: 0,
        },
        filter,
    }
}

// The record, and the default of each extra channel in the lent buffers; at: behind the bit that says all default. It answers as the entry does, so
// that the record isn't copied once more (measured: a tenth of the instructions).
pub fn give_default(
    s: &[u8],
    at: Cursor,
    f: Facts,
    upsampling: &mut [u32],
    blending: &mut [u32],
) -> Result<HeaderRead, Refusal>
    ensures { Defaulted f at.at result upsampling.old upsampling.new blending.old blending.new }
{
    read_array(s, at, 0, f.extra, UPSAMPLINGS, 1, upsampling);
    read_extra_blending(s, at, false, f.extra, true, source_decider(f, 0), blending);
    let front = default_front(f);
    let back = default_back();
    let header = assemble(f, front, back);
    Ok(HeaderRead { header, end: at.at })
}
