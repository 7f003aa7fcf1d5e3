// The geometry of a frame, over its six numbers: the grid and the questions on it.
ghost use Rattle.grid.specs.Measured.{grid_of};
ghost use Rattle.grid.specs.Groups.{sampled, rect_for, lf_index_of, index_for, touch_for};
ghost use Rattle.c_words.specs.Answers.{Given};
ghost use Rattle.c_words.specs.Records.{frame, rect, number_answer, placed_answer, touch_answer, grid_answer};

use c_words::{frame, give_grid, give_number, give_rect, give_touch, region};

// The grid: colour sample size, sides, columns, rows and counts.
pub fn hingevale_measure(
    width: u32,
    height: u32,
    upsampling: u32,
    lf_level: u32,
    group_size_shift: u32,
    num_passes: u32,
    out: &mut [u64],
) -> u64
    ensures { Given (grid_answer (grid_of (frame width height upsampling lf_level group_size_shift num_passes))) out.old result out.new }
{
    let f = frame(
        width,
        height,
        upsampling,
        lf_level,
        group_size_shift,
        num_passes,
    );
    give_grid(grid::measure(f), out)
}

// The width in samples for an upsampling.
pub fn hingevale_sample_width(
    width: u32,
    height: u32,
    upsampling: u32,
    lf_level: u32,
    group_size_shift: u32,
    num_passes: u32,
    by: u32,
    out: &mut [u64],
) -> u64
    ensures { Given (number_answer (sampled (frame width height upsampling lf_level group_size_shift num_passes) width by)) out.old result out.new }
{
    let f = frame(
        width,
        height,
        upsampling,
        lf_level,
        group_size_shift,
        num_passes,
    );
    give_number(grid::sample_width(f, by), out)
}

// The height in samples for an upsampling.
pub fn hingevale_sample_height(
    width: u32,
    height: u32,
    upsampling: u32,
    lf_level: u32,
    group_size_shift: u32,
    num_passes: u32,
    by: u32,
    out: &mut [u64],
) -> u64
    ensures { Given (number_answer (sampled (frame width height upsampling lf_level group_size_shift num_passes) height by)) out.old result out.new }
{
    let f = frame(
        width,
        height,
        upsampling,
        lf_level,
        group_size_shift,
        num_passes,
    );
    give_number(grid::sample_height(f, by), out)
}

// The clipped rectangle of a group.
pub fn hingevale_group_rect(
    width: u32,
    height: u32,
    upsampling: u32,
    lf_level: u32,
    group_size_shift: u32,
    num_passes: u32,
    group_idx: u32,
    out: &mut [u64],
) -> u64
    ensures { Given (placed_answer (rect_for (grid_of (frame width height upsampling lf_level group_size_shift num_passes)) (grid_of (frame width height upsampling lf_level group_size_shift num_passes)).side group_idx)) out.old result out.new }
{
    let f = frame(
        width,
        height,
        upsampling,
        lf_level,
        group_size_shift,
        num_passes,
    );
    give_rect(grid::group_rect(f, group_idx), out)
}

// The clipped rectangle of an LF group.
pub fn hingevale_lf_group_rect(
    width: u32,
    height: u32,
    upsampling: u32,
    lf_level: u32,
    group_size_shift: u32,
    num_passes: u32,
    lf_group_idx: u32,
    out: &mut [u64],
) -> u64
    ensures { Given (placed_answer (rect_for (grid_of (frame width height upsampling lf_level group_size_shift num_passes)) (grid_of (frame width height upsampling lf_level group_size_shift num_passes)).lf_side lf_group_idx)) out.old result out.new }
{
    let f = frame(
        width,
        height,
        upsampling,
        lf_level,
        group_size_shift,
        num_passes,
    );
    give_rect(grid::lf_group_rect(f, lf_group_idx), out)
}

// The group of a point.
pub fn hingevale_group_idx_from_coord(
    width: u32,
    height: u32,
    upsampling: u32,
    lf_level: u32,
    group_size_shift: u32,
    num_passes: u32,
    x: u32,
    y: u32,
    out: &mut [u64],
) -> u64
    ensures { Given (number_answer (index_for (grid_of (frame width height upsampling lf_level group_size_shift num_passes)) x y)) out.old result out.new }
{
    let f = frame(
        width,
        height,
        upsampling,
        lf_level,
        group_size_shift,
        num_passes,
    );
    give_number(grid::group_idx_from_coord(f, x, y), out)
}

// The LF group that holds a group.
pub fn hingevale_lf_group_idx_from_group_idx(
    width: u32,
    height: u32,
    upsampling: u32,
    lf_level: u32,
    group_size_shift: u32,
    num_passes: u32,
    group_idx: u32,
    out: &mut [u64],
) -> u64
    ensures { Given (number_answer (lf_index_of (grid_of (frame width height upsampling lf_level group_size_shift num_passes)) group_idx)) out.old result out.new }
{
    let f = frame(
        width,
        height,
        upsampling,
        lf_level,
        group_size_shift,
        num_passes,
    );
    give_number(grid::lf_group_idx_from_group_idx(f, group_idx), out)
}

// Whether a region overlaps a group, unclipped.
pub fn hingevale_is_group_collides_region(
    width: u32,
    height: u32,
    upsampling: u32,
    lf_level: u32,
    group_size_shift: u32,
    num_passes: u32,
    group_idx: u32,
    left: u32,
    top: u32,
    across: u32,
    down: u32,
    out: &mut [u64],
) -> u64
    ensures { Given (touch_answer (touch_for (grid_of (frame width height upsampling lf_level group_size_shift num_passes)) (grid_of (frame width height upsampling lf_level group_size_shift num_passes)).side group_idx (rect left top across down))) out.old result out.new }
{
    let f = frame(
        width,
        height,
        upsampling,
        lf_level,
        group_size_shift,
        num_passes,
    );
    give_touch(
        grid::is_group_collides_region(f, group_idx, region(left, top, across, down)),
        out,
    )
}

// Whether a region overlaps an LF group, unclipped.
pub fn hingevale_is_lf_group_collides_region(
    width: u32,
    height: u32,
    upsampling: u32,
    lf_level: u32,
    group_size_shift: u32,
    num_passes: u32,
    lf_group_idx: u32,
    left: u32,
    top: u32,
    across: u32,
    down: u32,
    out: &mut [u64],
) -> u64
    ensures { Given (touch_answer (touch_for (grid_of (frame width height upsampling lf_level group_size_shift num_passes)) (grid_of (frame width height upsampling lf_level group_size_shift num_passes)).lf_side lf_group_idx (rect left top across down))) out.old result out.new }
{
    let f = frame(
        width,
        height,
        upsampling,
        lf_level,
        group_size_shift,
        num_passes,
    );
    give_touch(
        grid::is_lf_group_collides_region(f, lf_group_idx, region(left, top, across, down)),
        out,
    )
}
