// The listing of a frame's sections as text, written into lent bytes: a heading, a line a section, the total; and the two lines that stand
// for it where there is no table. Each is put twice by one walk: into no room, to know its length, and then into the lent bytes.
#![tactic(auto)]

mod put;
mod rows;

ghost use Rattle.std.specs.Prelude.{◌≡◌, map, ◌≤◌, length};
ghost use Rattle.listing.specs.Put.{Texted, fitted};
ghost use Rattle.listing.specs.Private.{Put};
ghost use Rattle.listing.specs.Text.{column, line, heading, refused_text, order_text};
ghost use Rattle.listing.specs.Listed.{listing, listing_text, listing_refusal};

use bits::Refusal;
use grid::Frame;
use put::{put_bytes, put_columns};
pub use rows::Row;
use rows::{Tables, put_rows};

// A line of a word and a few columns.
fn put_line(out: &mut [u8], at: usize, word: &[u8], columns: &[Option<u64>]) -> usize
    requires { (at ≤ 576460752303423488) × (length word.now ≤ 4096) × (length columns.now ≤ 4096) }
    ensures { Put out.old at (line word.now (map column columns.now)) out.new result }
{
    let a = put_bytes(out, at, word);
    put_columns(out, a, columns)
}

// Such a line alone: how many bytes it has, or 3 where it doesn't fit.
fn write_line(word: &[u8], columns: &[Option<u64>], out: &mut [u8]) -> Result<usize, Refusal>
    requires { (length word.now ≤ 4096) × (length columns.now ≤ 4096) }
    ensures { Texted (fitted (line word.now (map column columns.now)) out.old)
        (line word.now (map column columns.now)) out.old result out.new }
{
    let mut nowhere = [0u8; 1];
    let length = put_line(&mut nowhere, 0, word, columns);
    if out.len() < length {
        return Err(bits::refused(3, 0));
    }
    Ok(put_line(out, 0, word, columns))
}

// `refused`, number, place: how many bytes that is, or 3 where it doesn't fit.
pub fn write_refused(r: Refusal, out: &mut [u8]) -> Result<usize, Refusal>
    ensures { Texted (fitted (refused_text r) out.old) (refused_text r) out.old result out.new }
{
    write_line(b"refused", &[Some(u64::from(r.number)), Some(r.place)], out)
}

// `order` and the place after the flag, where the frame needs an order; 3 where the line doesn't fit.
pub fn write_order_needed(place: u64, out: &mut [u8]) -> Result<usize, Refusal>
    ensures { Texted (fitted (order_text place) out.old) (order_text place) out.old result out.new }
{
    write_line(b"order", &[Some(place)], out)
}

fn put_heading(out: &mut [u8]) -> usize
    ensures { Put out.old 0 heading out.new result }
{
    put_bytes(
        out,
        0,
        b"section\tkind\tpass\tgroup\tsent\toffset\tsize\tleft\ttop\twidth\theight\n",
    )
}

// The whole listing, its sections as they stand in the tables.
fn put_listing(out: &mut [u8], t: &Tables<'_>, count: u32) -> usize
    requires { count ≤ 65536 }
    ensures { Put out.old 0 (listing_text count t.now.frame t.now.offsets.now t.now.sizes.now t.now.order.now) out.new result }
{
    let a = put_heading(out);
    let b = put_rows(out, a, t, count);
    put_line(out, b, b"total", &[Some(t.sum_sizes(count))])
}

// The listing of an accepted table: 8, 9, 10, then 3 where a table has too few words or the text doesn't fit, then 13.
pub fn write_listing(
    f: Frame,
    offsets: &[u64],
    sizes: &[u32],
    order: &[u32],
    out: &mut [u8],
) -> Result<usize, Refusal>
    ensures { Texted (listing_refusal f offsets.now sizes.now order.now out.old)
        (listing f offsets.now sizes.now order.now) out.old result out.new }
{
    let g = grid::measure(f)?;
    let n = g.sections as usize;
    let t = Tables {
        frame: f,
        offsets,
        sizes,
        order,
    };
    let mut nowhere = [0u8; 1];
    let length = put_listing(&mut nowhere, &t, g.sections);
    if offsets.len() < n || sizes.len() < n || out.len() < length {
        return Err(bits::refused(3, 0));
    }
    order::check_order(order, g.sections)?;
    Ok(put_listing(out, &t, g.sections))
}
