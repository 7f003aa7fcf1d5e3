// What the section entries come to: the status of what was read, and a table's three words.
ghost use Rattle.std.specs.Prelude.{◌≡◌};
ghost use Rattle.toc.specs.Reading.{toc_told};
ghost use Rattle.c_words.specs.Contents.{no_room, toc_status, toc_after};

use crate::answers::status;
use bits::Refusal;
use grid::Frame;
use toc::TocRead;

// What is refused where the lent words are too short: 2, 8, 9, 10, 3.
pub fn no_room(n: usize, f: Frame) -> Refusal
    ensures { result ≡ no_room n f }
{
    if 16777216 < n {
        return bits::refused(2, 0);
    }
    match grid::measure(f) {
        Ok(_) => bits::refused(3, 0),
        Err(own) => own,
    }
}

// A table's three numbers as words, and the status of what was read.
pub fn give_toc(t: Result<TocRead, Refusal>, out: &mut [u64]) -> u64
    ensures { (result ≡ toc_status (toc_told t)) × (out.new ≡ toc_after (toc_told t) out.old) }
{
    match t {
        Ok(TocRead::Table(toc)) => {
            let words = [toc.count as u64, toc.bookmark, toc.total_byte_size];
            fill::fill(out, 0, &words);
            0
        }
        Ok(TocRead::OrderNeeded(place)) => (place % 72057594037927936) * 256 + 255,
        Err(r) => status(r),
    }
}
