// The kind of a section, and the section of a kind or of a sample, as `group_index_bitstream_order` of the Rust has them; where that panics,
// refusal 14. No table is needed, and each takes constant time.
ghost use Rattle.std.specs.Prelude.{◌≡◌, ◌*◌, ◌%◌, ◌^◌, ◌≤◌, ◌<◌};
ghost use Rattle.grid.specs.Groups.{index_at};
ghost use Rattle.grid.specs.Measured.{unrefused};
ghost use Rattle.order.specs.Numbers.{section_or_refused};
ghost use Rattle.sections.specs.Kinds.{numbers_of, has_kind, section_number, kind_at, section_of_kind, numbers_in, kind_of, kind_or_refused};
ghost use Rattle.sections.specs.Lookups.{sample_kind, has_sample, section_of_sample};

use crate::{KindNumbers, TocGroupKind};
use bits::Refusal;
use grid::{Frame, Grid, found, measure};
use order::SectionNumber;

// A kind's number and values.
impl From<TocGroupKind> for KindNumbers {
    ghost from_gives = { λ kind numbers. numbers ≡ numbers_of kind };

    fn from(kind: TocGroupKind) -> KindNumbers {
        match kind {
            TocGroupKind::All => KindNumbers {
                kind: 0,
                pass_idx: 0,
                group_idx: 0,
            },
            TocGroupKind::LfGlobal => KindNumbers {
                kind: 1,
                pass_idx: 0,
                group_idx: 0,
            },
            TocGroupKind::LfGroup(i) => KindNumbers {
                kind: 2,
                pass_idx: 0,
                group_idx: i,
            },
            TocGroupKind::HfGlobal => KindNumbers {
                kind: 3,
                pass_idx: 0,
                group_idx: 0,
            },
            TocGroupKind::GroupPass {
                pass_idx,
                group_idx,
            } => KindNumbers {
                kind: 4,
                pass_idx,
                group_idx,
            },
        }
    }
}

// `From` by its older name, a public function that may not go.
pub fn kind_numbers(kind: TocGroupKind) -> KindNumbers
    ensures { result ≡ numbers_of kind }
{
    KindNumbers::from(kind)
}

// Whether the frame has a section of the kind.
#[tactic(auto, unfolding(crate::specs::Kinds::has_kind))]
fn has_kind(g: Grid, passes: u32, kind: TocGroupKind) -> bool
    ensures { result ≡ has_kind (unrefused g) passes (numbers_of kind) }
{
    if g.sections == 1 {
        return matches!(kind, TocGroupKind::All);
    }
    match kind {
        TocGroupKind::All => false,
        TocGroupKind::LfGlobal | TocGroupKind::HfGlobal => true,
        TocGroupKind::LfGroup(i) => i < g.lf_groups,
        TocGroupKind::GroupPass {
            pass_idx,
            group_idx,
        } => pass_idx < passes && group_idx < g.groups,
    }
}

// The section number of a kind that the frame has.
#[tactic(auto, unfolding(crate::specs::Kinds::section_number))]
fn section_number(g: Grid, kind: TocGroupKind) -> u32
    requires { section_number (unrefused g) (numbers_of kind) < 65536 }
    ensures { result ≡ section_number (unrefused g) (numbers_of kind) }
{
    match kind {
        TocGroupKind::All | TocGroupKind::LfGlobal => 0,
        TocGroupKind::LfGroup(i) => 1 + i,
        TocGroupKind::HfGlobal => 1 + g.lf_groups,
        TocGroupKind::GroupPass {
            pass_idx,
            group_idx,
        } => 1 + g.lf_groups + 1 + pass_idx * g.groups + group_idx,
    }
}

// A kind to its section number: 8, 9, 10, then 14 where the frame has no such section.
pub fn section_of_kind(f: Frame, kind: TocGroupKind) -> Result<SectionNumber, Refusal>
    ensures { result ≡ section_or_refused (section_of_kind f kind) }
{
    let g = measure(f)?;
    found(has_kind(g, f.num_passes, kind))?;
    Ok(SectionNumber(section_number(g, kind)))
}

// The kind of a section of an accepted frame.
#[tactic(auto, unfolding(crate::specs::Kinds::kind_at))]
fn kind_at(g: Grid, i: u32) -> TocGroupKind
    requires { 0 < g.groups }
    ensures { result ≡ kind_at (unrefused g) i }
{
    if g.sections == 1 {
        return TocGroupKind::All;
    }
    if i == 0 {
        return TocGroupKind::LfGlobal;
    }
    if i <= g.lf_groups {
        return TocGroupKind::LfGroup(i - 1);
    }
    let past = i - g.lf_groups - 1;
    if past == 0 {
        return TocGroupKind::HfGlobal;
    }
    let rest = past - 1;
    TocGroupKind::GroupPass {
        pass_idx: rest / g.groups,
        group_idx: rest % g.groups,
    }
}

// A section number to its kind: 8, 9, 10, then 14 where the frame has no such section.
pub fn kind_of(f: Frame, section: SectionNumber) -> Result<TocGroupKind, Refusal>
    ensures { numbers_in result ≡ kind_or_refused (kind_of f section) }
{
    let g = measure(f)?;
    let i = section.0;
    found(i < g.sections)?;
    Ok(kind_at(g, i))
}

// Whether the sample lies in the colour sample size, and the frame has the pass.
#[tactic(auto, unfolding(crate::specs::Lookups::has_sample))]
fn has_sample(g: Grid, passes: u32, x: u32, y: u32, pass: u32) -> bool
    ensures { result ≡ has_sample (unrefused g) passes x y pass }
{
    let inside = x < g.width && y < g.height;
    inside && pass < passes
}

// The kind of the section that holds a sample in a pass. The side is written as the power of two that it is, so that dividing by it is a
// shift.
#[tactic(auto, unfolding(crate::specs::Lookups::sample_kind))]
fn sample_kind(g: Grid, shift: u32, x: u32, y: u32, pass: u32) -> TocGroupKind
    requires { (shift ≤ 3) × (128 * 2 ^ shift % 4294967296 ≡ g.side) × (0 < g.side) × (index_at g.columns g.side x y < 65536) }
    ensures { result ≡ sample_kind (unrefused g) x y pass }
{
    if g.sections == 1 {
        return TocGroupKind::All;
    }
    let side = 128u32 << shift;
    let group_idx = (y / side) * g.columns + x / side;
    TocGroupKind::GroupPass {
        pass_idx: pass,
        group_idx,
    }
}

// A sample and a pass to the number of their section: 8, 9, 10, then 14.
pub fn section_of_sample(f: Frame, x: u32, y: u32, pass: u32) -> Result<SectionNumber, Refusal>
    ensures { result ≡ section_or_refused (section_of_sample f x y pass) }
{
    let g = measure(f)?;
    found(has_sample(g, f.num_passes, x, y, pass))?;
    let kind = sample_kind(g, f.group_size_shift, x, y, pass);
    Ok(SectionNumber(section_number(g, kind)))
}
