// Squares of one side that cover a picture, row by row: groups and LF groups differ in the side alone.
ghost use Rattle.std.specs.Prelude.{◌≡◌, true, ◌+◌, ◌-◌, ◌*◌, min, ltb, Ok, Err};
ghost use Rattle.grid.specs.Sizes.{up};
ghost use Rattle.grid.specs.Measured.{unrefused};
ghost use Rattle.grid.specs.Groups.{has, judge_answer, cell_of, clipped, collides, rect_for, touch_for, rect_or_refused, touch_or_refused};
ghost use Rattle.bits.specs.Refusals.{pick, refusal};

use crate::{Grid, Rect};
use bits::Refusal;

// a / b rounded up; 0 where b is 0, which `u32::div_ceil` asks its callers to rule out. Nothing wraps.
pub fn div_ceil(a: u32, b: u32) -> u32
    ensures { result ≡ up a b }
{
    if b == 0 {
        return 0;
    }
    if a == 0 {
        return 0;
    }
    (a - 1) / b + 1
}

// The exact product of two counts.
pub fn count(a: u32, b: u32) -> u64
    ensures { result ≡ a * b }
{
    (a as u64) * (b as u64)
}

// Whether the frame of a grid has square i of a side.
pub fn has(g: Grid, side: u32, i: u32) -> bool
    ensures { result ≡ has (unrefused g) side i }
{
    let columns = div_ceil(g.width, side);
    let rows = div_ceil(g.height, side);
    (i as u64) < count(columns, rows)
}

// 14 where the frame doesn't have what is asked for.
pub fn found(known: bool) -> Result<(), Refusal>
    ensures { result ≡ pick known (Ok tt) (Err (refusal 14 0)) }
{
    if known {
        Ok(())
    } else {
        Err(bits::refused(14, 0))
    }
}

// The frame's own refusal, or 14 where it doesn't have what is asked for, or none.
pub fn judge(g: Result<Grid, Refusal>, known: bool) -> Result<(), Refusal>
    ensures { result ≡ judge_answer g known }
{
    g?;
    found(known)
}

// Square i of a side, unclipped.
fn cell(g: Grid, side: u32, i: u32) -> Rect
    requires { has (unrefused g) side i ≡ true }
    ensures { result ≡ cell_of g.width side i }
{
    let per_row = div_ceil(g.width, side);
    Rect {
        left: (i % per_row) * side,
        top: (i / per_row) * side,
        width: side,
        height: side,
    }
}

// How much of a length that begins somewhere lies before an end.
fn within(start: u32, length: u32, end: u32) -> u32
    ensures { result ≡ min length (end - start) }
{
    length.min(end.saturating_sub(start))
}

// What of a rectangle lies in a width and a height.
fn clip(width: u32, height: u32, r: Rect) -> Rect
    ensures { result ≡ clipped width height r }
{
    Rect {
        left: r.left,
        top: r.top,
        width: within(r.left, r.width, width),
        height: within(r.top, r.height, height),
    }
}

// The clipped rectangle of square i, or why there is none.
pub fn rect_for(g: Grid, side: u32, i: u32) -> Result<Rect, Refusal>
    ensures { result ≡ rect_or_refused (rect_for (unrefused g) side i) }
{
    found(has(g, side, i))?;
    Ok(clip(g.width, g.height, cell(g, side, i)))
}

// Whether the sum of a start and a length lies beyond a point; the sum is exact.
fn reaches(start: u32, length: u32, point: u32) -> bool
    ensures { result ≡ ltb point (start + length) }
{
    (point as u64) < (start as u64) + (length as u64)
}

// The four strict comparisons of the Rust's function of this name.
#[tactic(auto, unfolding(crate::specs::Groups::collides))]
pub fn is_aabb_collides(a: Rect, b: Rect) -> bool
    ensures { result ≡ collides a b }
{
    let across = reaches(b.left, b.width, a.left) && reaches(a.left, a.width, b.left);
    let down = reaches(b.top, b.height, a.top) && reaches(a.top, a.height, b.top);
    across && down
}

// Whether a region and square i, unclipped, overlap.
pub fn touch_for(g: Grid, side: u32, i: u32, region: Rect) -> Result<bool, Refusal>
    ensures { result ≡ touch_or_refused (touch_for (unrefused g) side i region) }
{
    found(has(g, side, i))?;
    Ok(is_aabb_collides(region, cell(g, side, i)))
}
