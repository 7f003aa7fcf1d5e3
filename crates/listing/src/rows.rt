// A section's line: what it shows, and how it is put.
ghost use Rattle.std.specs.Prelude.{◌≡◌, ◌+◌, ◌≤◌, get_or};
ghost use Rattle.grid.specs.Measured.{grid_of};
ghost use Rattle.order.specs.Sums.{sum_to};
ghost use Rattle.listing.specs.Private.{Put};
ghost use Rattle.listing.specs.Text.{pass_of, group_of, sides_of, columns_of, row_text, rows_from};
ghost use Rattle.listing.specs.Listed.{rect_by, row_at};

use crate::put::{put_columns, put_name, put_number};
use grid::{Frame, Rect};
use order::SectionNumber;
use sections::TocGroupKind;

// What a section's line shows: its number, its kind, its words of the three tables and its rectangle, where it has one.
#[derive(Clone, Copy)]
pub struct Row {
    pub section: u32,
    pub kind: TocGroupKind,
    pub sent: u32,
    pub offset: u64,
    pub size: u32,
    pub rect: Option<Rect>,
}

// What a listing is made of: a frame and its tables, taken as they are.
#[derive(Clone, Copy)]
pub struct Tables<'a> {
    pub frame: Frame,
    pub offsets: &'a [u64],
    pub sizes: &'a [u32],
    pub order: &'a [u32],
}

// A word of a table; past its end, what is named.
fn word<T: Copy>(t: &[T], i: u32, past: T) -> T
    ensures { result ≡ get_or t.now i past }
{
    t.get(i as usize).copied().unwrap_or(past)
}

// The rectangle where the frame has none.
const EMPTY: Rect = Rect {
    left: 0,
    top: 0,
    width: 0,
    height: 0,
};

// The whole colour sample size.
fn whole(f: Frame) -> Rect
    ensures { result ≡ record { left = 0; top = 0; width = (grid_of f).width; height = (grid_of f).height } }
{
    Rect {
        left: 0,
        top: 0,
        width: grid::color_sample_width(f).unwrap_or(0),
        height: grid::color_sample_height(f).unwrap_or(0),
    }
}

// The rectangle of a kind.
#[tactic(auto, unfolding(crate::specs::Listed::rect_by))]
fn rect_of(f: Frame, kind: TocGroupKind) -> Option<Rect>
    ensures { result ≡ rect_by (grid_of f) kind }
{
    match kind {
        TocGroupKind::All => Some(whole(f)),
        TocGroupKind::LfGroup(i) => Some(grid::lf_group_rect(f, i).unwrap_or(EMPTY)),
        TocGroupKind::GroupPass { group_idx, .. } => {
            Some(grid::group_rect(f, group_idx).unwrap_or(EMPTY))
        }
        TocGroupKind::LfGlobal | TocGroupKind::HfGlobal => None,
    }
}

impl Tables<'_> {
    // What the listing shows of a section: 0 where a table has no such word.
    fn row(&self, i: u32) -> Row
        ensures { result ≡ row_at self.now.frame self.now.offsets.now self.now.sizes.now self.now.order.now i }
    {
        let kind = sections::kind_of(self.frame, SectionNumber(i)).unwrap_or(TocGroupKind::All);
        Row {
            section: i,
            kind,
            sent: word(self.order, i, 0),
            offset: word(self.offsets, i, 0),
            size: word(self.sizes, i, 0),
            rect: rect_of(self.frame, kind),
        }
    }

    // The sum of the first so many sections' sizes.
    pub fn sum_sizes(&self, count: u32) -> u64
        requires { count ≤ 65536 }
        ensures { result ≡ sum_to count (λ i. get_or self.now.sizes.now i 0) }
    {
        let mut total: u64 = 0;
        for i in 0..count {
            total += u64::from(word(self.sizes, i, 0));
        }
        total
    }
}

// A GroupPass shows its pass; it and an LfGroup show their group.
fn pass_of(kind: TocGroupKind) -> Option<u64>
    ensures { result ≡ pass_of kind }
{
    match kind {
        TocGroupKind::GroupPass { pass_idx, .. } => Some(u64::from(pass_idx)),
        TocGroupKind::All
        | TocGroupKind::LfGlobal
        | TocGroupKind::LfGroup(_)
        | TocGroupKind::HfGlobal => None,
    }
}

fn group_of(kind: TocGroupKind) -> Option<u64>
    ensures { result ≡ group_of kind }
{
    match kind {
        TocGroupKind::LfGroup(group_idx) | TocGroupKind::GroupPass { group_idx, .. } => {
            Some(u64::from(group_idx))
        }
        TocGroupKind::All | TocGroupKind::LfGlobal | TocGroupKind::HfGlobal => None,
    }
}

// A rectangle's four columns.
fn sides_of(rect: Option<Rect>) -> [Option<u64>; 4]
    ensures { result ≡ sides_of rect }
{
    match rect {
        Some(r) => [r.left, r.top, r.width, r.height].map(|side| Some(u64::from(side))),
        None => [None; 4],
    }
}

// The columns behind the kind's name.
fn columns_of(r: Row) -> [Option<u64>; 9]
    ensures { result ≡ columns_of r }
{
    let [left, top, width, height] = sides_of(r.rect);
    [
        pass_of(r.kind),
        group_of(r.kind),
        Some(u64::from(r.sent)),
        Some(r.offset),
        Some(u64::from(r.size)),
        left,
        top,
        width,
        height,
    ]
}

// A section's line.
fn put_row(out: &mut [u8], at: usize, r: Row) -> usize
    requires { at ≤ 576460752303423488 }
    ensures { Put out.old at (row_text r) out.new result × (result ≤ at + 256) }
{
    let a = put_number(out, at, u64::from(r.section));
    let b = put_name(out, a, r.kind);
    put_columns(out, b, &columns_of(r))
}

// A line for each section, in the order of their numbers.
pub fn put_rows(out: &mut [u8], at: usize, t: &Tables<'_>, count: u32) -> usize
    requires { (at ≤ 4096) × (count ≤ 65536) }
    ensures { Put out.old at (rows_from (row_at t.now.frame t.now.offsets.now t.now.sizes.now t.now.order.now) count 0) out.new result
        × (result ≤ 16781312) }
{
    let mut end = at;
    for i in 0..count {
        end = put_row(out, end, t.row(i));
    }
    end
}
