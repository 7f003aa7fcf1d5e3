// The whole header in parts, read one after the other.
ghost use Rattle.std.specs.Prelude.{◌≡◌};
ghost use Rattle.header.specs.Header.{sent_upsampling, sends_blending};
ghost use Rattle.header.specs.Private.{Fronted, Backed};

use crate::Facts;
use crate::arrays::{pass_bytes, read_array};
use crate::blending::{
    Blending, Decider, covers_image, read_blending_if, read_extra_blending, source_decider,
};
use crate::closing::{Closing, read_closing};
use crate::opening::{Opening, UPSAMPLINGS, read_opening};
use crate::shape::{Passes, Placement, Scales, read_passes_if, read_placement, read_scales};
use bits::{Cursor, begin, kept};
use filter::{RestorationFilter, read_restoration_filter_if};
use numbers::read_extensions_if;
use types::FrameFlags;

// all_default to the frame's size.
#[derive(Clone, Copy)]
pub struct Front {
    pub opening: Opening,
    pub scales: Scales,
    pub passes: Passes,
    pub placement: Placement,
}

// Not `Read<Front>`: the cursors at which the extra channels' words begin are kept too.
#[derive(Clone, Copy)]
pub struct FrontRead {
    pub value: Front,
    pub upsampling_at: Cursor,
    pub next: Cursor,
}

// Blending to the filters.
#[derive(Clone, Copy)]
pub struct Back {
    pub blending: Blending,
    pub closing: Closing,
    pub filter: RestorationFilter,
}

#[derive(Clone, Copy)]
pub struct BackRead {
    pub value: Back,
    pub blending_at: Cursor,
    pub name_at: Cursor,
    pub next: Cursor,
}

// How many extra channels send their upsampling: all or none.
pub fn sent_upsampling(f: Facts, o: Opening) -> u32
    ensures { result ≡ sent_upsampling f o }
{
    let lf = FrameFlags(o.flags).use_lf_frame();
    if o.all_default == 0 && !lf {
        f.extra
    } else {
        0
    }
}

// A normal frame, whose blending is sent.
pub fn sends_blending(o: Opening) -> bool
    ensures { result ≡ sends_blending o }
{
    o.all_default == 0 && (o.frame_type == 0 || o.frame_type == 3)
}

// The extra channels' upsampling goes into a lent table, as much of it as that holds.
pub fn read_front(s: &[u8], f: Facts, upsampling: &mut [u32]) -> FrontRead
    ensures { Fronted f s.now result upsampling.old upsampling.new }
{
    let a = read_opening(s, begin(0), f);
    let opening = a.value;
    let upsampling_at = a.next;
    let u = read_array(
        s,
        upsampling_at,
        sent_upsampling(f, opening),
        f.extra,
        UPSAMPLINGS,
        1,
        upsampling,
    );
    let q = read_scales(s, u, f, opening);
    let p = read_passes_if(
        s,
        q.next,
        opening.all_default == 0 && opening.frame_type != 2,
    );
    let c = read_placement(s, p.next, f, opening);
    let scales = q.value;
    let passes = p.value;
    let placement = c.value;
    let next = c.next;
    FrontRead {
        value: Front {
            opening,
            scales,
            passes,
            placement,
        },
        upsampling_at,
        next,
    }
}

// The extra channels' blending goes into a lent table, as much of it as that holds.
pub fn read_back(
    s: &[u8],
    c: Cursor,
    f: Facts,
    o: Opening,
    placement: Placement,
    channels: &mut [u32],
) -> BackRead
    ensures { Backed f o placement s.now c result channels.old channels.new }
{
    let full = covers_image(f, placement);
    let sent = sends_blending(o);
    let b = read_blending_if(
        s,
        c,
        sent,
        f.extra != 0,
        full,
        Decider { own: true, mode: 0 },
    );
    let blending = b.value;
    let blending_at = kept(b.next);
    let mode = blending.mode;
    let x = read_extra_blending(
        s,
        blending_at,
        sent,
        f.extra,
        full,
        source_decider(f, mode),
        channels,
    );
    let e = read_closing(s, x, f, o, mode == 0 && full);
    let closing = e.value;
    let name_at = e.next;
    let n = pass_bytes(s, name_at, closing.name_length);
    let on = o.all_default == 0;
    let r = read_restoration_filter_if(s, n, on, o.encoding == 1);
    let filter = r.value;
    let next = read_extensions_if(s, r.next, on);
    BackRead {
        value: Back {
            blending,
            closing,
            filter,
        },
        blending_at,
        name_at,
        next,
    }
}
