// The grid of a frame, from the geometry of `src/header.rs`: sample sizes, groups and LF groups, rectangles, look-ups and regions.
// Every function takes the six numbers of a frame by value, and answers for any six: what is wrong with them is refused with 8, 9 or
// 10, in that order, then a group or a point that the frame doesn't have with 14. Nothing wraps.
#![tactic(auto)]

mod tiles;

ghost use Rattle.std.specs.Prelude.{◌≡◌, true, false, ◌*◌, ◌<◌, ◌≤◌, ◌^◌};
ghost use Rattle.bits.specs.Refusals.{pick};
ghost use Rattle.grid.specs.Groups.{sampled, told, rect_for, size_of, touch_for, lf_index_of, index_for};
ghost use Rattle.grid.specs.Groups.{number_or_refused, rect_or_refused, size_or_refused, touch_or_refused};
ghost use Rattle.grid.specs.Sizes.{sample, sections_of};
ghost use Rattle.grid.specs.Measured.{upsamples, good_record, zero_size, too_many, refused_grid, laid, grid_of, grid_or_refused};

use bits::Refusal;
use tiles::{count, div_ceil, has, rect_for, touch_for};
pub use tiles::{found, is_aabb_collides, judge};

// The numbers of a frame that its geometry needs.
#[derive(Clone, Copy, Debug, PartialEq, Eq)]
pub struct Frame {
    pub width: u32,
    pub height: u32,
    pub upsampling: u32,
    pub lf_level: u32,
    pub group_size_shift: u32,
    pub num_passes: u32,
}

// What those six come to: the colour sample size, both sides, columns and rows of groups and LF groups, and how many sections there are.
#[derive(Clone, Copy, Debug, PartialEq, Eq)]
pub struct Grid {
    pub width: u32,
    pub height: u32,
    pub side: u32,
    pub lf_side: u32,
    pub columns: u32,
    pub rows: u32,
    pub lf_columns: u32,
    pub lf_rows: u32,
    pub groups: u32,
    pub lf_groups: u32,
    pub sections: u32,
}

// A rectangle in samples.
#[derive(Clone, Copy, Debug, PartialEq, Eq)]
pub struct Rect {
    pub left: u32,
    pub top: u32,
    pub width: u32,
    pub height: u32,
}

#[derive(Clone, Copy, Debug, PartialEq, Eq)]
pub struct Size {
    pub width: u32,
    pub height: u32,
}

// 1, 2, 4 or 8, by bits 1, 2, 4 and 8 of one number.
fn upsamples(n: u32) -> bool
    ensures { result ≡ upsamples n }
{
    if n <= 8 {
        (278u32 >> n) & 1 == 1
    } else {
        false
    }
}

// Refusal 8, BadRecord, is given exactly where this is false.
#[tactic(auto, unfolding(crate::specs::Measured::good_record))]
fn is_good(f: Frame) -> bool
    ensures { result ≡ good_record f }
{
    let upsamples = upsamples(f.upsampling);
    let passes = 1 <= f.num_passes && f.num_passes <= 11;
    let levels = f.lf_level <= 4 && f.group_size_shift <= 3;
    let sizes = f.width <= 1073760511 && f.height <= 1073760511;
    (upsamples && passes) && (levels && sizes)
}

// A size in samples, as in `sample_width` of the Rust.
fn sample(n: u32, upsampling: u32, level: u32) -> u32
    requires { level ≤ 4 }
    ensures { result ≡ sample n upsampling level }
{
    let div = 1u32 << (3 * level);
    if upsampling <= 1 {
        div_ceil(n, div)
    } else {
        div_ceil(div_ceil(n, upsampling), div)
    }
}

// How many sections so many groups, LF groups and passes give.
#[tactic(auto, unfolding(crate::specs::Sizes::sections_of))]
fn sections_of(groups: u64, lf: u64, passes: u64) -> u64
    requires { (groups < 2 ^ 48) × (lf < 2 ^ 48) × (passes ≤ 11) }
    ensures { result ≡ sections_of groups lf passes }
{
    if groups == 1 && passes == 1 {
        1
    } else {
        1 + lf + 1 + groups * passes
    }
}

// The grid of a frame whose record is good and whose size isn't zero, or refusal 10 over 65,536 sections: every product is exact.
#[inline(always)]
fn counted(f: Frame) -> Result<Grid, Refusal>
    requires { (good_record f ≡ true) × (zero_size f ≡ false) }
    ensures { result ≡ grid_or_refused (pick (too_many f) (refused_grid 10) (laid f)) }
{
    let width = sample(f.width, f.upsampling, f.lf_level);
    let height = sample(f.height, f.upsampling, f.lf_level);
    let shift = f.group_size_shift;
    let side = 128u32 << shift;
    let lf_side = side * 8;
    let columns = div_ceil(width, side);
    let rows = div_ceil(height, side);
    let lf_columns = div_ceil(width, lf_side);
    let lf_rows = div_ceil(height, lf_side);
    let groups = count(columns, rows);
    let lf_groups = count(lf_columns, lf_rows);
    let sections = sections_of(groups, lf_groups, f.num_passes as u64);
    if 65536 < sections {
        return Err(bits::refused(10, 0));
    }
    Ok(Grid {
        width,
        height,
        side,
        lf_side,
        columns,
        rows,
        lf_columns,
        lf_rows,
        groups: groups as u32,
        lf_groups: lf_groups as u32,
        sections: sections as u32,
    })
}

// The one check of every function here: refusals 8, 9 and 10 in that order, all with place 0. Put into each look-up, so that none counts what it
// doesn't use.
#[inline(always)]
pub fn measure(f: Frame) -> Result<Grid, Refusal>
    ensures { result ≡ grid_or_refused (grid_of f) }
{
    if !is_good(f) {
        return Err(bits::refused(8, 0));
    }
    if f.width == 0 || f.height == 0 {
        return Err(bits::refused(9, 0));
    }
    counted(f)
}

// One of the frame's sizes in samples, or why there is none.
fn sampled(f: Frame, n: u32, upsampling: u32) -> Result<u32, Refusal>
    ensures { result ≡ number_or_refused (sampled f n upsampling) }
{
    measure(f)?;
    Ok(sample(n, upsampling, f.lf_level))
}

// From here on group and LF group, width and height: public names that each promise their own; what they share is `sampled`, `rect_for`, `touch_for`.
// The frame's width in samples, for an upsampling that may be any number.
pub fn sample_width(f: Frame, upsampling: u32) -> Result<u32, Refusal>
    ensures { result ≡ number_or_refused (sampled f f.width upsampling) }
{
    sampled(f, f.width, upsampling)
}

pub fn sample_height(f: Frame, upsampling: u32) -> Result<u32, Refusal>
    ensures { result ≡ number_or_refused (sampled f f.height upsampling) }
{
    sampled(f, f.height, upsampling)
}

// The frame's size in colour samples.
pub fn color_sample_width(f: Frame) -> Result<u32, Refusal>
    ensures { result ≡ number_or_refused (told (grid_of f) (grid_of f).width) }
{
    let g = measure(f)?;
    Ok(g.width)
}

pub fn color_sample_height(f: Frame) -> Result<u32, Refusal>
    ensures { result ≡ number_or_refused (told (grid_of f) (grid_of f).height) }
{
    let g = measure(f)?;
    Ok(g.height)
}

// The side of a group, and of an LF group.
pub fn group_dim(f: Frame) -> Result<u32, Refusal>
    ensures { result ≡ number_or_refused (told (grid_of f) (grid_of f).side) }
{
    let g = measure(f)?;
    Ok(g.side)
}

pub fn lf_group_dim(f: Frame) -> Result<u32, Refusal>
    ensures { result ≡ number_or_refused (told (grid_of f) (grid_of f).lf_side) }
{
    let g = measure(f)?;
    Ok(g.lf_side)
}

// How many stand in a row.
pub fn groups_per_row(f: Frame) -> Result<u32, Refusal>
    ensures { result ≡ number_or_refused (told (grid_of f) (grid_of f).columns) }
{
    let g = measure(f)?;
    Ok(g.columns)
}

pub fn lf_groups_per_row(f: Frame) -> Result<u32, Refusal>
    ensures { result ≡ number_or_refused (told (grid_of f) (grid_of f).lf_columns) }
{
    let g = measure(f)?;
    Ok(g.lf_columns)
}

// How many there are.
pub fn num_groups(f: Frame) -> Result<u32, Refusal>
    ensures { result ≡ number_or_refused (told (grid_of f) (grid_of f).groups) }
{
    let g = measure(f)?;
    Ok(g.groups)
}

pub fn num_lf_groups(f: Frame) -> Result<u32, Refusal>
    ensures { result ≡ number_or_refused (told (grid_of f) (grid_of f).lf_groups) }
{
    let g = measure(f)?;
    Ok(g.lf_groups)
}

// How many sections the frame has.
pub fn section_count(f: Frame) -> Result<u32, Refusal>
    ensures { result ≡ number_or_refused (told (grid_of f) (grid_of f).sections) }
{
    let g = measure(f)?;
    Ok(g.sections)
}

// The clipped rectangle of a group, with its origin.
pub fn group_rect(f: Frame, group_idx: u32) -> Result<Rect, Refusal>
    ensures { result ≡ rect_or_refused (rect_for (grid_of f) (grid_of f).side group_idx) }
{
    let g = measure(f)?;
    rect_for(g, g.side, group_idx)
}

// The clipped rectangle of an LF group.
pub fn lf_group_rect(f: Frame, lf_group_idx: u32) -> Result<Rect, Refusal>
    ensures { result ≡ rect_or_refused (rect_for (grid_of f) (grid_of f).lf_side lf_group_idx) }
{
    let g = measure(f)?;
    rect_for(g, g.lf_side, lf_group_idx)
}

// The size of a rectangle.
fn size_of(rect: Rect) -> Size
    ensures { result ≡ record { width = rect.width; height = rect.height } }
{
    Size {
        width: rect.width,
        height: rect.height,
    }
}

// The size of a group, clipped.
pub fn group_size_for(f: Frame, group_idx: u32) -> Result<Size, Refusal>
    ensures { result ≡ size_or_refused (size_of (rect_for (grid_of f) (grid_of f).side group_idx)) }
{
    Ok(size_of(group_rect(f, group_idx)?))
}

// The size of an LF group, clipped.
pub fn lf_group_size_for(f: Frame, lf_group_idx: u32) -> Result<Size, Refusal>
    ensures { result ≡ size_or_refused (size_of (rect_for (grid_of f) (grid_of f).lf_side lf_group_idx)) }
{
    Ok(size_of(lf_group_rect(f, lf_group_idx)?))
}

// Whether a region overlaps a group, unclipped.
pub fn is_group_collides_region(f: Frame, group_idx: u32, region: Rect) -> Result<bool, Refusal>
    ensures { result ≡ touch_or_refused (touch_for (grid_of f) (grid_of f).side group_idx region) }
{
    let g = measure(f)?;
    touch_for(g, g.side, group_idx, region)
}

// Whether a region overlaps an LF group, unclipped.
pub fn is_lf_group_collides_region(
    f: Frame,
    lf_group_idx: u32,
    region: Rect,
) -> Result<bool, Refusal>
    ensures { result ≡ touch_or_refused (touch_for (grid_of f) (grid_of f).lf_side lf_group_idx region) }
{
    let g = measure(f)?;
    touch_for(g, g.lf_side, lf_group_idx, region)
}

// The LF group that holds a group.
pub fn lf_group_idx_from_group_idx(f: Frame, group_idx: u32) -> Result<u32, Refusal>
    ensures { result ≡ number_or_refused (lf_index_of (grid_of f) group_idx) }
{
    let g = measure(f)?;
    found(has(g, g.side, group_idx))?;
    let columns = g.columns;
    let across = (group_idx % columns) / 8;
    let down = (group_idx / columns) / 8;
    Ok(across + down * g.lf_columns)
}

// The group of a point, which may lie beyond the picture but inside an unclipped group. The side is written as the power of two that it is,
// so that dividing by it is a shift.
pub fn group_idx_from_coord(f: Frame, x: u32, y: u32) -> Result<u32, Refusal>
    ensures { result ≡ number_or_refused (index_for (grid_of f) x y) }
{
    let g = measure(f)?;
    let side = 128u32 << f.group_size_shift;
    let column = x / side;
    let row = y / side;
    found(column < g.columns && row < g.rows)?;
    Ok(row * g.columns + column)
}
