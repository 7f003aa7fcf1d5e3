// Runs stored vectors through the crate `grid`: a record of 18 numbers in, a line of every function's answer out. The numbers are the frame's six,
// an upsampling, a group, a point and two rectangles.
#![tactic(auto)]

use bits::Refusal;
use grid::{Frame, Grid, Rect, Size};
use replay::{Output, refusal_of};
use std::io;

fn main(rt: HostRuntime) -> io::Result<()> {
    let mut input = rt.stdin();
    let mut out = replay::buffered(rt.alloc(), rt.stdout())?;
    let mut r = [0u8; 72];
    for _ in 0..100000u32 {
        if input::read_full(&mut input, &mut r)? != 72 {
            break;
        }
        line(&mut out, &r);
    }
    out.finish()
}

fn line(out: &mut Output, r: &[u8]) {
    let f = replay::frame(r, 0);
    let [by, n, x, y] = replay::four(r, 24);
    let one = rect(r, 40);
    measured(out, f);
    counts(out, f, by);
    group(
        out,
        grid::group_rect(f, n),
        grid::group_size_for(f, n),
        grid::is_group_collides_region(f, n, one),
    );
    group(
        out,
        grid::lf_group_rect(f, n),
        grid::lf_group_size_for(f, n),
        grid::is_lf_group_collides_region(f, n, one),
    );
    number(out, grid::lf_group_idx_from_group_idx(f, n));
    number(out, grid::group_idx_from_coord(f, x, y));
    out.decimal(u64::from(grid::is_aabb_collides(one, rect(r, 56))));
    out.end();
}

fn rect(r: &[u8], at: u32) -> Rect {
    let [left, top, width, height] = replay::four(r, at);
    Rect {
        left,
        top,
        width,
        height,
    }
}

fn number(out: &mut Output, n: Result<u32, Refusal>) {
    out.cells(&[n.unwrap_or(0), refusal_of(n).number]);
}

fn measured(out: &mut Output, f: Frame) {
    let answer = grid::measure(f);
    let refusal = refusal_of(answer);
    let g = answer.unwrap_or(Grid {
        width: 0,
        height: 0,
        side: 0,
        lf_side: 0,
        columns: 0,
        rows: 0,
        lf_columns: 0,
        lf_rows: 0,
        groups: 0,
        lf_groups: 0,
        sections: 0,
    });
    out.cells(&[
        g.width,
        g.height,
        g.side,
        g.lf_side,
        g.columns,
        g.rows,
        g.lf_columns,
        g.lf_rows,
        g.groups,
        g.lf_groups,
        g.sections,
        refusal.number,
    ]);
    out.show(refusal.place);
}

fn counts(out: &mut Output, f: Frame, upsampling: u32) {
    let all = [
        grid::sample_width(f, upsampling),
        grid::sample_height(f, upsampling),
        grid::color_sample_width(f),
        grid::color_sample_height(f),
        grid::group_dim(f),
        grid::lf_group_dim(f),
        grid::groups_per_row(f),
        grid::lf_groups_per_row(f),
        grid::num_groups(f),
        grid::num_lf_groups(f),
        grid::section_count(f),
    ];
    for n in all {
        number(out, n);
    }
}

fn group(
    out: &mut Output,
    rect: Result<Rect, Refusal>,
    size: Result<Size, Refusal>,
    touches: Result<bool, Refusal>,
) {
    let b = rect.unwrap_or(Rect {
        left: 0,
        top: 0,
        width: 0,
        height: 0,
    });
    let c = size.unwrap_or(Size {
        width: 0,
        height: 0,
    });
    out.cells(&[
        b.left,
        b.top,
        b.width,
        b.height,
        refusal_of(rect).number,
        c.width,
        c.height,
        refusal_of(size).number,
        u32::from(touches.unwrap_or(false)),
        refusal_of(touches).number,
    ]);
}
