// A frame's layout as eight words, and the section of a sample by such words.
ghost use Rattle.std.specs.Prelude.{◌≡◌, ◌%◌};
ghost use Rattle.order.specs.Numbers.{section_or_refused};
ghost use Rattle.c_words.specs.Answers.{Handed, words_of};
ghost use Rattle.c_words.specs.Layouts.{layout_words, section_by};

use crate::answers::{give, refuse};
use bits::Refusal;
use layout::Layout;
use order::SectionNumber;

// A layout, as eight words: the fields of `Layout` in their order.
pub fn give_layout(answer: Result<Layout, Refusal>, out: &mut [u64]) -> u64
    ensures { Handed 8 (words_of layout_words answer) out.old result out.new }
{
    match answer {
        Ok(l) => {
            let words = [
                l.width as u64,
                l.height as u64,
                l.power as u64,
                l.columns as u64,
                l.groups as u64,
                l.lf_groups as u64,
                l.sections as u64,
                l.passes as u64,
            ];
            give(words, out)
        }
        Err(r) => refuse(r, 8, out),
    }
}

// The lowest 32 bits of a word: `as` alone would have to be in range.
fn low(word: u64) -> u32
    ensures { result ≡ word % 4294967296 }
{
    (word % 4294967296) as u32
}

// The section of a sample in a pass by a layout's words: 3 where there are fewer than eight, then 14. Each word counts by its lowest 32 bits.
pub fn section_by(words: &[u64], x: u32, y: u32, pass: u32) -> Result<SectionNumber, Refusal>
    ensures { result ≡ section_or_refused (section_by words.now x y pass) }
{
    if words.len() < 8 {
        return Err(bits::refused(3, 0));
    }
    let l = Layout {
        width: low(words[0]),
        height: low(words[1]),
        power: low(words[2]),
        columns: low(words[3]),
        groups: low(words[4]),
        lf_groups: low(words[5]),
        sections: low(words[6]),
        passes: low(words[7]),
    };
    layout::section_in(l, x, y, pass)
}
