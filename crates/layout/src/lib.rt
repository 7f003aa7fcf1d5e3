// A frame's layout: what the look-up of a sample needs of a frame, measured once. A viewer asks for many samples of one frame; through
// the layout none of them judges the frame again. Any eight numbers are a layout, and every look-up ends.
#![tactic(auto)]

ghost use Rattle.std.specs.Prelude.{◌≡◌, ◌^◌, ◌<◌};
ghost use Rattle.grid.specs.Groups.{index_at};
ghost use Rattle.order.specs.Numbers.{section_or_refused};
ghost use Rattle.layout.specs.Layouts.{layout_of, layout_or_refused, number_in, not_in, section_in};

use bits::Refusal;
use grid::Frame;
use order::SectionNumber;

// The colour sample size, the power of two that is a group's side, the groups in a row, the counts, and how many passes there are.
#[derive(Clone, Copy, Debug, PartialEq, Eq)]
pub struct Layout {
    pub width: u32,
    pub height: u32,
    pub power: u32,
    pub columns: u32,
    pub groups: u32,
    pub lf_groups: u32,
    pub sections: u32,
    pub passes: u32,
}

// The layout of a frame: 8, 9, 10.
pub fn layout_of(f: Frame) -> Result<Layout, Refusal>
    ensures { result ≡ layout_or_refused (layout_of f) }
{
    let g = grid::measure(f)?;
    Ok(Layout {
        width: g.width,
        height: g.height,
        power: 7 + f.group_size_shift,
        columns: g.columns,
        groups: g.groups,
        lf_groups: g.lf_groups,
        sections: g.sections,
        passes: f.num_passes,
    })
}

// The group of a sample, exactly.
fn group_in(l: Layout, x: u32, y: u32) -> u64
    requires { l.power < 32 }
    ensures { result ≡ index_at l.columns (2 ^ l.power) x y }
{
    let power = l.power;
    let row = (y >> power) as u64;
    let column = (x >> power) as u64;
    row * (l.columns as u64) + column
}

// The number of a group's section in a pass, exactly.
fn number_in(l: Layout, pass: u32, group: u64) -> u64
    requires { (pass < l.passes) × (group < l.groups) }
    ensures { result ≡ number_in l pass group }
{
    if l.sections == 1 {
        return 0;
    }
    1 + (l.lf_groups as u64) + 1 + (pass as u64) * (l.groups as u64) + group
}

// The layout has no such sample, or no such pass.
fn not_in() -> Result<SectionNumber, Refusal>
    ensures { result ≡ section_or_refused not_in }
{
    Err(bits::refused(14, 0))
}

// A sample and a pass to the number of their section: 14 where the layout has none.
#[tactic(auto, unfolding(crate::specs::Layouts::section_in, crate::specs::Layouts::has_in))]
pub fn section_in(l: Layout, x: u32, y: u32, pass: u32) -> Result<SectionNumber, Refusal>
    ensures { result ≡ section_or_refused (section_in l x y pass) }
{
    let inside = x < l.width && y < l.height;
    let early = pass < l.passes && l.power < 32;
    if !(inside && early) {
        return not_in();
    }
    let group = group_in(l, x, y);
    if (l.groups as u64) <= group {
        return not_in();
    }
    let number = number_in(l, pass, group);
    if (l.sections as u64) <= number {
        return not_in();
    }
    Ok(SectionNumber(number as u32))
}
