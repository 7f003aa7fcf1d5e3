// Every number of a header, shown where nothing was refused, and all of them in one.
ghost use Rattle.std.specs.Prelude.{◌≡◌};
ghost use Rattle.header.specs.Record.{numbers_of, zero_header};

use bits::Refusal;
use filter::{RestorationFilter, disabled_filter};
use header::{BlendingInfo, FrameHeader, HeaderRead, Passes};
use replay::{Output, Tally};
use types::{BlendMode, Encoding, FrameFlags, FrameType};

// A refused header is shown as one whose numbers are all 0.
pub fn answer(out: &mut Output, a: Result<HeaderRead, Refusal>) {
    let full = a.is_ok();
    let (refusal, end, h) = match a {
        Ok(read) => (bits::accepted(), read.end, read.header),
        Err(refusal) => (refusal, 0, zero_header()),
    };
    out.refusal(refusal);
    out.show(end);
    let mut all = Tally {
        big: true,
        full,
        sum: 0,
    };
    opening(out, &mut all, h);
    arrays(out, &mut all, h);
    closing(out, &mut all, h);
    filters(out, &mut all, h.restoration_filter);
    out.show(all.sum);
}

fn opening(out: &mut Output, all: &mut Tally, h: FrameHeader) {
    all.add_shown(out, &[u32::from(h.frame_type), u32::from(h.encoding)]);
    flags(out, all, h.flags);
    all.add_shown(out, &[u32::from(h.do_ycbcr), h.encoded_color_channels]);
}

fn flags(out: &mut Output, all: &mut Tally, f: FrameFlags) {
    all.add_shown(out, &[f.0]);
    let five = [
        f.noise(),
        f.patches(),
        f.splines(),
        f.use_lf_frame(),
        f.skip_adaptive_lf_smoothing(),
    ];
    all.add_shown(out, &five.map(u32::from));
}

fn arrays(out: &mut Output, all: &mut Tally, h: FrameHeader) {
    let p = h.passes;
    let six = [
        h.upsampling,
        h.group_size_shift,
        h.x_qm_scale,
        h.b_qm_scale,
        p.num_passes,
        p.num_ds,
    ];
    all.add_shown(out, &h.jpeg_upsampling);
    all.add_shown(out, &six);
    all.add_shown(out, &p.shift);
    all.add_shown(out, &p.downsample);
    all.add_shown(out, &p.last_pass);
}

// The crop, the blending, the closing fields, and what is asked of a header. A number below 0 is 1 and k for -1 - k.
fn closing(out: &mut Output, all: &mut Tally, h: FrameHeader) {
    let i = h.blending_info;
    let f = h.frame();
    let numbers = [
        h.lf_level,
        u32::from(h.have_crop),
        u32::from(h.x0 < 0),
        replay::size(h.x0),
        u32::from(h.y0 < 0),
        replay::size(h.y0),
        h.width,
        h.height,
        u32::from(i.mode),
        i.alpha_channel,
        u32::from(i.clamp),
        i.source,
        h.duration,
        h.timecode,
        u32::from(h.is_last),
        h.save_as_reference,
        u32::from(h.resets_canvas),
        u32::from(h.save_before_ct),
        h.name_length,
        u32::from(h.is_keyframe()),
        u32::from(h.can_reference()),
        h.encoded_color_channels(),
        u32::from(h.resets_canvas()),
        f.width,
        f.height,
        f.upsampling,
        f.lf_level,
        f.group_size_shift,
        f.num_passes,
    ];
    all.add_shown(out, &numbers);
}

// The flags and the iterations are printed, the values are in the one number alone.
fn filters(out: &mut Output, all: &mut Tally, v: RestorationFilter) {
    let gab = v.gab;
    let epf = v.epf;
    let p = epf.params;
    let three = [
        u32::from(gab.enabled()),
        u32::from(epf.enabled()),
        epf.iters,
    ];
    let last = [
        p.quant_mul,
        p.pass0_sigma_scale,
        p.pass2_sigma_scale,
        p.border_sad_mul,
        p.sigma_for_modular,
    ];
    all.add_shown(out, &three);
    all.add(&gab.weights);
    all.add(&p.sharp_lut);
    all.add(&p.channel_scale);
    all.add(&last);
}

pub fn questions(out: &mut Output, n: u32, bits: u64) {
    // The cases by number, the last one for any other.
    let t = FrameType::try_from(n).unwrap_or(FrameType::SkipProgressive);
    let e = Encoding::try_from(n).unwrap_or(Encoding::Modular);
    let m = BlendMode::try_from(n).unwrap_or(BlendMode::Mul);
    let seven = [
        u32::from(t),
        u32::from(t.is_normal_frame()),
        u32::from(t.is_lf_frame()),
        u32::from(t.is_progressive_frame()),
        u32::from(e),
        u32::from(m),
        u32::from(m.use_alpha()),
    ];
    let mut all = Tally {
        big: true,
        full: true,
        sum: 0,
    };
    all.add_shown(out, &seven);
    flags(out, &mut all, FrameFlags(bits));
    out.decimal(all.sum);
    out.end();
}

// What stands beside a refusal: the definition's zeros.
#[tactic(auto, unfolding(header::specs::Record::zero_header))]
fn zero_header() -> FrameHeader
    ensures { numbers_of result ≡ zero_header }
{
    FrameHeader {
        frame_type: FrameType::RegularFrame,
        encoding: Encoding::VarDct,
        flags: FrameFlags(0),
        do_ycbcr: false,
        encoded_color_channels: 0,
        jpeg_upsampling: [0; 3],
        upsampling: 0,
        group_size_shift: 0,
        x_qm_scale: 0,
        b_qm_scale: 0,
        passes: Passes {
            num_passes: 0,
            num_ds: 0,
            shift: [0; 10],
            downsample: [0; 4],
            last_pass: [0; 4],
        },
        lf_level: 0,
        have_crop: false,
        x0: 0,
        y0: 0,
        width: 0,
        height: 0,
        blending_info: BlendingInfo {
            mode: BlendMode::Replace,
            alpha_channel: 0,
            clamp: false,
            source: 0,
        },
        duration: 0,
        timecode: 0,
        is_last: false,
        save_as_reference: 0,
        resets_canvas: false,
        save_before_ct: false,
        name_length: 0,
        restoration_filter: disabled_filter(),
    }
}
