// Numbers to records of the crates below, and what they answer as words.
ghost use Rattle.std.specs.Prelude.{◌≡◌};
ghost use Rattle.order.specs.Numbers.{section_or_refused};
ghost use Rattle.sections.specs.Kinds.{numbers_in};
ghost use Rattle.c_words.specs.Answers.{Handed, words_of};
ghost use Rattle.c_words.specs.Records.{frame, rect, kind_named, section_of_numbers, number_words, rect_words, touch_words, grid_words, section_words, sent_words, kind_words, place_words};

use crate::answers::{give, refuse};
use bits::Refusal;
use grid::{Frame, Grid, Rect};
use order::{SectionNumber, SentNumber};
use sections::{KindNumbers, SectionPlace, TocGroupKind};

// A frame out of its six numbers, as C hands them.
pub fn frame(
    width: u32,
    height: u32,
    upsampling: u32,
    lf_level: u32,
    group_size_shift: u32,
    num_passes: u32,
) -> Frame
    ensures { result ≡ frame width height upsampling lf_level group_size_shift num_passes }
{
    Frame {
        width,
        height,
        upsampling,
        lf_level,
        group_size_shift,
        num_passes,
    }
}

// A region out of its four numbers.
pub fn region(left: u32, top: u32, width: u32, height: u32) -> Rect
    ensures { result ≡ rect left top width height }
{
    Rect {
        left,
        top,
        width,
        height,
    }
}

// A number, as one word.
pub fn give_number(answer: Result<u32, Refusal>, out: &mut [u64]) -> u64
    ensures { Handed 1 (words_of number_words answer) out.old result out.new }
{
    match answer {
        Ok(n) => give([n as u64], out),
        Err(r) => refuse(r, 1, out),
    }
}

// A rectangle, as four words: left, top, width, height.
pub fn give_rect(answer: Result<Rect, Refusal>, out: &mut [u64]) -> u64
    ensures { Handed 4 (words_of rect_words answer) out.old result out.new }
{
    match answer {
        Ok(a) => {
            let words = [a.left as u64, a.top as u64, a.width as u64, a.height as u64];
            give(words, out)
        }
        Err(r) => refuse(r, 4, out),
    }
}

// Yes or no, as one word: 1 or 0.
pub fn give_touch(answer: Result<bool, Refusal>, out: &mut [u64]) -> u64
    ensures { Handed 1 (words_of touch_words answer) out.old result out.new }
{
    match answer {
        Ok(yes) => give([yes as u64], out),
        Err(r) => refuse(r, 1, out),
    }
}

// A grid, as eleven words: the fields of `Grid` in their order.
pub fn give_grid(answer: Result<Grid, Refusal>, out: &mut [u64]) -> u64
    ensures { Handed 11 (words_of grid_words answer) out.old result out.new }
{
    match answer {
        Ok(g) => {
            let words = [
                g.width as u64,
                g.height as u64,
                g.side as u64,
                g.lf_side as u64,
                g.columns as u64,
                g.rows as u64,
                g.lf_columns as u64,
                g.lf_rows as u64,
                g.groups as u64,
                g.lf_groups as u64,
                g.sections as u64,
            ];
            give(words, out)
        }
        Err(r) => refuse(r, 11, out),
    }
}

// A section number, as one word.
pub fn give_section(answer: Result<SectionNumber, Refusal>, out: &mut [u64]) -> u64
    ensures { Handed 1 (words_of section_words answer) out.old result out.new }
{
    match answer {
        Ok(section) => give([section.0 as u64], out),
        Err(r) => refuse(r, 1, out),
    }
}

// A sent number, as one word.
pub fn give_sent(answer: Result<SentNumber, Refusal>, out: &mut [u64]) -> u64
    ensures { Handed 1 (words_of sent_words answer) out.old result out.new }
{
    match answer {
        Ok(sent) => give([sent.0 as u64], out),
        Err(r) => refuse(r, 1, out),
    }
}

// A kind, as three words: its number, pass and group (or LF group).
pub fn give_kind(answer: Result<TocGroupKind, Refusal>, out: &mut [u64]) -> u64
    ensures { Handed 3 (words_of kind_words (numbers_in answer)) out.old result out.new }
{
    match answer {
        Ok(kind) => {
            let k = KindNumbers::from(kind);
            give([k.kind as u64, k.pass_idx as u64, k.group_idx as u64], out)
        }
        Err(r) => refuse(r, 3, out),
    }
}

// Where a section lies, as two words: offset, size.
pub fn give_place(answer: Result<SectionPlace, Refusal>, out: &mut [u64]) -> u64
    ensures { Handed 2 (words_of place_words answer) out.old result out.new }
{
    match answer {
        Ok(place) => give([place.offset, place.size as u64], out),
        Err(r) => refuse(r, 2, out),
    }
}

// The kind that three numbers name, as C hands them; an unknown number names none, and `kind_named` of specs/Records.antt gives All for it.
fn kind_named(kind: u32, pass_idx: u32, group_idx: u32) -> TocGroupKind
    ensures { result ≡ kind_named kind pass_idx group_idx }
{
    match kind {
        1 => TocGroupKind::LfGlobal,
        2 => TocGroupKind::LfGroup(group_idx),
        3 => TocGroupKind::HfGlobal,
        4 => TocGroupKind::GroupPass {
            pass_idx,
            group_idx,
        },
        _ => TocGroupKind::All,
    }
}

// The section of a kind that three numbers name: 8, 9, 10, then 14, for an unknown number too.
pub fn section_named(
    f: Frame,
    kind: u32,
    pass_idx: u32,
    group_idx: u32,
) -> Result<SectionNumber, Refusal>
    ensures { result ≡ section_or_refused (section_of_numbers f kind pass_idx group_idx) }
{
    if kind <= 4 {
        return sections::section_of_kind(f, kind_named(kind, pass_idx, group_idx));
    }
    grid::measure(f)?;
    Err(bits::refused(14, 0))
}
