// The bundle `BlendingInfo`, of the colour channels and of each extra channel, and whether a frame resets the canvas.
ghost use Rattle.std.specs.Prelude.{◌≡◌, eqb};
ghost use Rattle.bits.specs.Refusals.{pick};
ghost use Rattle.bits.specs.Codec.{val, plus};
ghost use Rattle.bits.specs.Table.{read};
ghost use Rattle.header.specs.Private.{seen_small, Extras};
ghost use Rattle.header.specs.Blending.{covers_side, covers_image, source_decider, has_source, blending};

use crate::Facts;
use crate::shape::Placement;
use bits::{
    Choice, Choices, Cursor, Read, Seen, View, begin, idle, kept, look_ahead, read_bits_if,
    read_bool_if, see, see_choice,
};
use fill::put;
use numbers::{read_enum_if, read_u32_if};
use types::BlendMode;

#[derive(Clone, Copy)]
pub struct BlendingInfo {
    pub mode: BlendMode,
    pub alpha_channel: u32,
    pub clamp: bool,
    pub source: u32,
}

// The same in numbers, as they are read (see `Opening`) and as an extra channel's four words have them.
#[derive(Clone, Copy)]
pub struct Blending {
    pub mode: u32,
    pub alpha_channel: u32,
    pub clamp: u32,
    pub source: u32,
}

// Which mode decides on `source`: the bundle's own, or one that is given. No Option: `blending .. d` and `has_source d` of specs/Blending.antt are
// over this record, as over the numbers and Bools beside it.
#[derive(Clone, Copy)]
pub struct Decider {
    pub own: bool,
    pub mode: u32,
}

// U32(0, 1, 2, 3 + u(2))
const MODES: Choices = Choices {
    d0: Choice { base: 0, bits: 0 },
    d1: Choice { base: 1, bits: 0 },
    d2: Choice { base: 2, bits: 0 },
    d3: Choice { base: 3, bits: 2 },
};

// U32(0, 1, 2, 3 + u(3))
const ALPHAS: Choices = Choices {
    d0: Choice { base: 0, bits: 0 },
    d1: Choice { base: 1, bits: 0 },
    d2: Choice { base: 2, bits: 0 },
    d3: Choice { base: 3, bits: 3 },
};

// Whether one side of a frame, begun at the signed reading of n, covers the image's.
fn covers(n: u32, size: u32, image: u32) -> bool
    ensures { result ≡ covers_side n size image }
{
    if n % 2 == 1 {
        return (image as u64) + (n as u64) / 2 + 1 <= (size as u64);
    }
    if n / 2 == 0 { image <= size } else { false }
}

// No crop, or a frame that covers the image.
#[tactic(auto, unfolding(crate::specs::Blending::covers_image))]
pub fn covers_image(f: Facts, c: Placement) -> bool
    ensures { result ≡ covers_image f c }
{
    let across = covers(c.x0, c.width, f.width);
    let down = covers(c.y0, c.height, f.height);
    c.have_crop == 0 || across && down
}

// Which mode decides on an extra channel's `source`: the facts are asked, and the colour channels' mode is given.
#[tactic(auto, unfolding(crate::specs::Blending::source_decider))]
pub fn source_decider(f: Facts, mode: u32) -> Decider
    ensures { result ≡ source_decider f mode }
{
    Decider { own: false, mode }
}

// Whether `source` stands there: the deciding mode and the frame do not reset the canvas.
#[tactic(auto, unfolding(crate::specs::Blending::has_source))]
fn has_source(d: Decider, own: u32, full: bool) -> bool
    ensures { result ≡ has_source d own full }
{
    let mode = if d.own { own } else { d.mode };
    !(mode == 0 && full)
}

// The choice of U32(0, 1, 2, 3 + u(n)) by its selector.
fn small_choice(k: u32, n: u32) -> Choice
    ensures { result ≡ pick (eqb k 3) (plus 3 n) (val k) }
{
    if k == 3 {
        Choice { base: 3, bits: n }
    } else {
        Choice { base: k, bits: 0 }
    }
}

// U32(0, 1, 2, 3 + u(n)) out of bits that are known, where it is asked for.
fn see_small(w: View, on: bool, n: u32) -> Seen
    ensures { result ≡ seen_small w on n }
{
    let k = see(w, on, 2);
    see_choice(k, small_choice(k.value, n))
}

// The bundle field by field.
fn read_blending_fields(
    s: &[u8],
    c: Cursor,
    on: bool,
    extra: bool,
    full: bool,
    d: Decider,
) -> Read<Blending>
    ensures { result ≡ read (blending on extra full d) s.now c }
{
    let m = read_enum_if(s, c, on, MODES, 5, 0);
    let alpha = extra && (m.value == 2 || m.value == 3);
    let a = read_u32_if(s, m.next, alpha, ALPHAS, 0);
    let k = read_bool_if(s, a.next, alpha || m.value == 4, 0);
    let source = on && has_source(d, m.value, full);
    let x = read_bits_if(s, k.next, source, 2, 0);
    let next = x.next;
    Read {
        value: Blending {
            mode: m.value,
            alpha_channel: a.value,
            clamp: k.value,
            source: x.value,
        },
        next,
    }
}

// The bundle, where it is asked for; extra says whether there are extra channels. It takes twelve bits at most, so that one look ahead
// holds it; near the input's end, and for a mode that is none, it is read field by field (that
// alone is slower: docs/PERFORMANCE.md, header, rich).
pub fn read_blending_if(
    s: &[u8],
    c: Cursor,
    on: bool,
    extra: bool,
    full: bool,
    d: Decider,
) -> Read<Blending>
    ensures { result ≡ read (blending on extra full d) s.now c }
{
    if !idle(c, on) {
        let at = c.at;
        let ahead = look_ahead(s, at);
        if ahead.whole {
            let m = see_small(
                View {
                    bits: ahead.bits,
                    at,
                },
                true,
                2,
            );
            if m.value < 5 {
                let alpha = extra && (m.value == 2 || m.value == 3);
                let a = see_small(m.rest, alpha, 3);
                let k = see(a.rest, alpha || m.value == 4, 1);
                let x = see(k.rest, has_source(d, m.value, full), 2);
                let rest = x.rest;
                let next = begin(rest.at);
                return Read {
                    value: Blending {
                        mode: m.value,
                        alpha_channel: a.value,
                        clamp: k.value,
                        source: x.value,
                    },
                    next,
                };
            }
        }
    }
    read_blending_fields(s, c, on, extra, full, d)
}

// The bundles of n extra channels, four words each, as C has them.
pub fn read_extra_blending(
    s: &[u8],
    c: Cursor,
    on: bool,
    n: u32,
    full: bool,
    d: Decider,
    out: &mut [u32],
) -> Cursor
    ensures { Extras on n full d s.now c result out.old out.new }
{
    let mut at = kept(c);
    for i in 0..n {
        let b = read_blending_if(s, at, on, true, full, d);
        let v = b.value;
        let k = (i as usize) * 4;
        put(out, k, v.mode);
        put(out, k + 1, v.alpha_channel);
        put(out, k + 2, v.clamp);
        put(out, k + 3, v.source);
        at = kept(b.next);
    }
    at
}
