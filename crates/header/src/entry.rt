// The entry: bytes, facts and three lent outputs to the header's record.
ghost use Rattle.std.specs.Prelude.{◌≡◌, ◌<◌};
ghost use Rattle.bits.specs.Refusals.{answered};
ghost use Rattle.header.specs.Record.{color_channels, info_numbers, blending_of, numbers_of, header_of};
ghost use Rattle.header.specs.Entry.{bad_facts, judged, Headed};
ghost use Rattle.header.specs.Private.{Named, ChannelsKept, ChannelsGiven, Filled};

use crate::arrays::{read_array, read_bytes};
use crate::blending::{Blending, BlendingInfo, covers_image, read_extra_blending, source_decider};
use crate::defaults::give_default;
use crate::opening::{Opening, UPSAMPLINGS};
use crate::parts::{
    Back, BackRead, Front, FrontRead, read_back, read_front, sends_blending, sent_upsampling,
};
use crate::{Facts, FrameHeader};
use bits::{Refusal, begin, read_bool, refused};
use fill::fill;
use numbers::unpack_signed;
use types::{BlendMode, Encoding, FrameFlags, FrameType};

// The record with the bit place after the header.
#[derive(Clone, Copy)]
pub struct HeaderRead {
    pub header: FrameHeader,
    pub end: u64,
}

fn color_channels(f: Facts, o: Opening) -> u32
    ensures { result ≡ color_channels f o }
{
    let coded = o.encoding == 1 && o.do_ycbcr != 1;
    let plain = !f.xyb && f.grey;
    if coded && plain { 1 } else { 3 }
}

// No TryFrom: a mode is known to be one here, and the record has no number that names none.
fn blending_info(b: Blending) -> BlendingInfo
    requires { b.mode < 5 }
    ensures { info_numbers result ≡ blending_of b }
{
    let mode = BlendMode::try_from(b.mode).unwrap();
    BlendingInfo {
        mode,
        alpha_channel: b.alpha_channel,
        clamp: b.clamp == 1,
        source: b.source,
    }
}

// The record of what was read. In line, so that it is made where it goes and not copied there (docs/PERFORMANCE.md).
#[inline(always)]
pub fn assemble(f: Facts, a: Front, b: Back) -> FrameHeader
    requires { Named a b }
    ensures { numbers_of result ≡ header_of f a b }
{
    let o = a.opening;
    let q = a.scales;
    let passes = a.passes;
    let placement = a.placement;
    let blending = b.blending;
    let closing = b.closing;
    let restoration_filter = b.filter;
    let frame_type = FrameType::try_from(o.frame_type).unwrap();
    let encoding = Encoding::try_from(o.encoding).unwrap();
    let flags = FrameFlags(o.flags);
    let encoded_color_channels = color_channels(f, o);
    let jpeg_upsampling = [o.jpeg0, o.jpeg1, o.jpeg2];
    let x0 = unpack_signed(placement.x0);
    let y0 = unpack_signed(placement.y0);
    let info = blending_info(blending);
    let full = covers_image(f, placement);
    let resets_canvas = blending.mode == 0 && full;
    FrameHeader {
        frame_type,
        encoding,
        flags,
        do_ycbcr: o.do_ycbcr == 1,
        encoded_color_channels,
        jpeg_upsampling,
        upsampling: o.upsampling,
        group_size_shift: q.group_size_shift,
        x_qm_scale: q.x_qm_scale,
        b_qm_scale: q.b_qm_scale,
        passes,
        lf_level: placement.lf_level,
        have_crop: placement.have_crop == 1,
        x0,
        y0,
        width: placement.width,
        height: placement.height,
        blending_info: info,
        duration: closing.duration,
        timecode: closing.timecode,
        is_last: closing.is_last == 1,
        save_as_reference: closing.save_as_reference,
        resets_canvas,
        save_before_ct: closing.save_before_ct == 1,
        name_length: closing.name_length,
        restoration_filter,
    }
}

fn bad_facts(f: Facts) -> bool
    ensures { result ≡ bad_facts f }
{
    let size = f.width == 0 || 1073741824 < f.width || f.height == 0 || 1073741824 < f.height;
    size || 256 < f.extra
}

// 2, 1, 3, before anything is read: by the input's length, the facts and the lengths of the lent buffers.
#[tactic(auto, unfolding(crate::specs::Entry::judged))]
pub fn judge_header(
    n: usize,
    f: Facts,
    name: usize,
    upsampling: usize,
    blending: usize,
) -> Result<(), Refusal>
    ensures { result ≡ answered (judged n f name upsampling blending) tt }
{
    if 16777216 < n {
        return Err(refused(2, 0));
    }
    if bad_facts(f) {
        return Err(refused(1, 0));
    }
    let extra = f.extra as usize;
    let short = name < 1071 || upsampling < extra || blending < 4 * extra;
    if short { Err(refused(3, 0)) } else { Ok(()) }
}

// The extra channels' words in the lent buffers: as they were kept, or read again where they are too many to keep.
fn give_channels(
    s: &[u8],
    f: Facts,
    a: FrontRead,
    b: BackRead,
    ups: &[u32],
    channels: &[u32],
    upsampling: &mut [u32],
    blending: &mut [u32],
)
    requires { ChannelsKept f s.now a b ups.now channels.now }
    ensures { ChannelsGiven f s.now a b upsampling.old upsampling.new blending.old blending.new }
{
    if f.extra <= 8 {
        let n = f.extra as usize;
        let m = 4 * n;
        fill(upsampling, 0, &ups[..n]);
        fill(blending, 0, &channels[..m]);
        return;
    }
    let front = a.value;
    let back = b.value;
    let o = front.opening;
    let colour = back.blending;
    read_array(
        s,
        a.upsampling_at,
        sent_upsampling(f, o),
        f.extra,
        UPSAMPLINGS,
        1,
        upsampling,
    );
    read_extra_blending(
        s,
        b.blending_at,
        sends_blending(o),
        f.extra,
        covers_image(f, front.placement),
        source_decider(f, colour.mode),
        blending,
    );
}

// The record of a header that was read, and its arrays in the lent buffers; the name is read there. It answers as the entry does, as `give_default`.
fn give_read(
    s: &[u8],
    f: Facts,
    a: FrontRead,
    b: BackRead,
    ups: &[u32],
    channels: &[u32],
    name: &mut [u8],
    upsampling: &mut [u32],
    blending: &mut [u32],
) -> Result<HeaderRead, Refusal>
    requires { ChannelsKept f s.now a b ups.now channels.now × Named a.value b.value }
    ensures { Filled f s.now a b result name.old name.new upsampling.old upsampling.new blending.old blending.new }
{
    let front = a.value;
    let back = b.value;
    let end = b.next;
    let closing = back.closing;
    give_channels(s, f, a, b, ups, channels, upsampling, blending);
    read_bytes(s, b.name_at, closing.name_length, name);
    let header = assemble(f, front, back);
    Ok(HeaderRead {
        header,
        end: end.at,
    })
}

// The entry: 2, 1, 3, then the first fault in reading order. The lent buffers are written once all is known to be good.
pub fn read_frame_header(
    s: &[u8],
    f: Facts,
    name: &mut [u8],
    upsampling: &mut [u32],
    blending: &mut [u32],
) -> Result<HeaderRead, Refusal>
    ensures { Headed f s.now result name.old name.new upsampling.old upsampling.new blending.old blending.new }
{
    judge_header(s.len(), f, name.len(), upsampling.len(), blending.len())?;
    let all = read_bool(s, begin(0));
    if all.value == 1 {
        return give_default(s, all.next, f, upsampling, blending);
    }
    // Kept for up to eight channels: no heap.
    let mut ups = [0u32; 8];
    let a = read_front(s, f, &mut ups);
    let front = a.value;
    let o = front.opening;
    let placement = front.placement;
    let mut channels = [0u32; 32];
    let b = read_back(s, a.next, f, o, placement, &mut channels);
    let end = b.next;
    let fault = end.fault;
    if fault.number != 0 {
        return Err(fault);
    }
    give_read(s, f, a, b, &ups, &channels, name, upsampling, blending)
}
