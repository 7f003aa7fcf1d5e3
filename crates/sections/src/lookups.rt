// A section's offset and size out of two lent tables, in constant time; and from section numbers to sent numbers and back, through
// the two orders.
ghost use Rattle.std.specs.Prelude.{◌≡◌};
ghost use Rattle.bits.specs.Refusals.{answered};
ghost use Rattle.grid.specs.Measured.{unrefused};
ghost use Rattle.order.specs.Numbers.{sent_or_refused, section_or_refused};
ghost use Rattle.sections.specs.Lookups.{place_refusal, place_of, place_or_refused, sent_of_section, section_of_sent};

use crate::SectionPlace;
use bits::Refusal;
use grid::{Frame, Grid, found, measure};
use order::{SectionNumber, SentNumber};

// What is refused of a section number and two tables' lengths, behind 8, 9 and 10: 3, 14.
fn judge_section(g: Grid, offsets: usize, sizes: usize, i: u32) -> Result<(), Refusal>
    ensures { result ≡ answered (place_refusal (unrefused g) offsets sizes i) tt }
{
    let n = g.sections as usize;
    if offsets < n || sizes < n {
        return Err(bits::refused(3, 0));
    }
    found(i < g.sections)
}

// A section's offset and size, out of tables that an entry filled; two beside each other, as C lends them.
pub fn section_at(
    f: Frame,
    offsets: &[u64],
    sizes: &[u32],
    section: SectionNumber,
) -> Result<SectionPlace, Refusal>
    ensures { result ≡ place_or_refused (place_of f offsets.now sizes.now section) }
{
    let g = measure(f)?;
    let i = section.0;
    judge_section(g, offsets.len(), sizes.len(), i)?;
    let at = i as usize;
    Ok(SectionPlace {
        offset: offsets[at],
        size: sizes[at],
    })
}

// A section's sent number, through the order: 8, 9, 10, 13, 14.
pub fn sent_of_section(
    f: Frame,
    order: &[u32],
    section: SectionNumber,
) -> Result<SentNumber, Refusal>
    ensures { result ≡ sent_or_refused (sent_of_section f order.now section) }
{
    let g = measure(f)?;
    order::sent_of(order, g.sections, section)
}

// The section of a sent number, through the inverse: 8, 9, 10, 13, 14.
pub fn section_of_sent(
    f: Frame,
    inverse: &[u32],
    sent: SentNumber,
) -> Result<SectionNumber, Refusal>
    ensures { result ≡ section_or_refused (section_of_sent f inverse.now sent) }
{
    let g = measure(f)?;
    order::section_of(inverse, g.sections, sent)
}
