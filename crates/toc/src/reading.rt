// The two entries that read a table of contents, as `parse` of the Rust's `Toc`. The first reads the permuted flag; the second is lent
// the order that a flag of 1 asks for, and goes on at the padding. Nothing is written before the whole table is known to be good.
ghost use Rattle.std.specs.Prelude.{IfSome, ◌≡◌, ◌+◌, ◌<◌, ◌≤◌, true, false, length, take};
ghost use Rattle.toc.specs.Reading.{Done, toc_told, tables, room_for, judged_by, first_reading, second_reading};
ghost use Rattle.toc.specs.Private.{sized_reading, summed, walked, size_at, offset_at, seen_size, Two, Room, order_by};
ghost use Rattle.bits.specs.Refusals.{answered};
ghost use Rattle.grid.specs.Measured.{grid_of};
ghost use Rattle.bits.specs.Codec.{u32, chosen, field};
ghost use Rattle.order.specs.Order.{is_order};
ghost use Rattle.order.specs.Private.{placed_by};
ghost use Rattle.toc.specs.Sizes.{size_choices};

use crate::orders::put_orders;
use crate::{Toc, TocRead};
use bits::{Choice, Cursor, Read, Refusal, Seen, View};
use grid::Frame;

// Four slices, no struct of them: C lends four, and here only `read_sizes` hands all four on.
// Whether each of four tables has a word for each section.
fn has_room(count: u32, offsets: usize, sizes: usize, order: usize, inverse: usize) -> bool
    ensures { result ≡ room_for count offsets sizes order inverse }
{
    let n = count as usize;
    let words = n <= offsets && n <= sizes;
    let orders = n <= order && n <= inverse;
    words && orders
}

// What is refused before anything is read: 2, 8, 9, 10, 3, 11; else how many sections the frame has. In line, so that the answer goes through no
// memory.
#[inline(always)]
fn judge_place(
    s: &[u8],
    f: Frame,
    place: u64,
    offsets: usize,
    sizes: usize,
    order: usize,
    inverse: usize,
) -> Result<u32, Refusal>
    ensures { result ≡ answered (judged_by s.now (grid_of f) place (room_for (grid_of f).sections offsets sizes order inverse)) (grid_of f).sections }
{
    if 16777216 < s.len() {
        return Err(bits::refused(2, 0));
    }
    let g = grid::measure(f)?;
    if !has_room(g.sections, offsets, sizes, order, inverse) {
        return Err(bits::refused(3, 0));
    }
    let end = 8 * s.len() as u64;
    if end < place {
        return Err(bits::refused(11, 0));
    }
    Ok(g.sections)
}

// What the walk that judges comes to: the cursor after the first padding, the one after the last, and the sum of the sizes.
#[derive(Clone, Copy)]
struct Walk {
    first: Cursor,
    last: Cursor,
    total: u64,
}

// One size, by hand beside `see_size`: sizes two at once are faster, and widths out of a table in memory slower (docs/PERFORMANCE.md).
// U32(u(10), 1024 + u(14), 17408 + u(22), 4211712 + u(30)).
fn read_size(s: &[u8], c: Cursor) -> Read<u32>
    ensures { result ≡ field s.now true (u32 size_choices) 0 c }
{
    let d = bits::one_of(0, 10, 1024, 14, 17408, 22, 4211712, 30);
    numbers::read_u32(s, c, d)
}

// How many bits stand behind a size's selector: 10, 14, 22 or 30, a byte each in one number.
fn size_bits(k: u32) -> u32
    requires { k < 4 }
    ensures { result ≡ (chosen size_choices k).bits }
{
    let widths: u32 = 504761866;
    (widths >> (8 * k)) & 255
}

fn size_base(k: u32) -> u32
    ensures { result ≡ (chosen size_choices k).base }
{
    if k == 0 {
        return 0;
    }
    if k == 1 {
        return 1024;
    }
    if k == 2 { 17408 } else { 4211712 }
}

// A size out of bits that are known.
fn see_size(w: View) -> Seen
    ensures { result ≡ seen_size w }
{
    let k = bits::see(w, true, 2);
    let base = size_base(k.value);
    let width = size_bits(k.value);
    bits::see_choice(k, Choice { base, bits: width })
}

// Two sizes that follow each other, and the place behind them.
#[derive(Clone, Copy)]
struct Pair {
    first: u32,
    second: u32,
    at: u64,
}

// Two sizes out of one look ahead, where two are left to read and it holds both. The second doesn't wait for a load of its own.
fn read_pair(s: &[u8], c: Cursor, on: bool) -> Option<Pair>
    ensures { IfSome result (λ p. Two s.now c on p) }
{
    let at = c.at;
    if bits::idle(c, on) {
        return None;
    }
    let a = bits::look_ahead(s, at);
    let x = see_size(View { bits: a.bits, at });
    let y = see_size(x.rest);
    let rest = y.rest;
    let end = rest.at;
    if !a.whole || 56 < end.wrapping_sub(at) {
        return None;
    }
    Some(Pair {
        first: x.value,
        second: y.value,
        at: end,
    })
}

// A turn reads two sizes or one, so the walks below count by hand.
// count sizes: their sum is what is read of them.
fn sum_sizes(s: &[u8], c: Cursor, count: u32) -> Read<u64>
    ensures { result ≡ summed s.now c count }
{
    let mut at = c;
    let mut total: u64 = 0;
    let mut k: u32 = 0;
    while k < count {
        if let Some(p) = read_pair(s, at, 2 <= count - k) {
            total += p.first as u64;
            total += p.second as u64;
            at = bits::begin(p.at);
            k += 2;
        } else {
            let x = read_size(s, at);
            at = x.next;
            total += x.value as u64;
            k += 1;
        }
    }
    Read {
        value: total,
        next: at,
    }
}

// Padding, count sizes, padding.
fn walk_sizes(s: &[u8], c: Cursor, count: u32) -> Walk
    ensures { result ≡ walked s.now c count }
{
    let first = bits::zero_pad_to_byte(s, c);
    let x = sum_sizes(s, first, count);
    let last = bits::zero_pad_to_byte(s, x.next);
    Walk {
        first,
        last,
        total: x.value,
    }
}

// The sizes again, in sent order: each is written at its section, with the sum of those before it as the offset.
fn fill_sizes(
    s: &[u8],
    begin: Cursor,
    start: u64,
    count: u32,
    inverse: &[u32],
    offsets: &mut [u64],
    sizes: &mut [u32],
)
    requires { (start ≤ 2305843009213693952) × (count ≤ length inverse.now) }
    ensures { (offsets.new ≡ placed_by (offset_at s.now begin start) 0 (take count inverse.now) offsets.old)
        × (sizes.new ≡ placed_by (size_at s.now begin) 0 (take count inverse.now) sizes.old) }
{
    let mut at = begin;
    let mut offset = start;
    let mut k: u32 = 0;
    while k < count {
        let i = k as usize;
        let section = inverse[i] as usize;
        if let Some(p) = read_pair(s, at, 2 <= count - k) {
            let other = inverse[i + 1] as usize;
            fill::put(offsets, section, offset);
            fill::put(sizes, section, p.first);
            offset += p.first as u64;
            fill::put(offsets, other, offset);
            fill::put(sizes, other, p.second);
            offset += p.second as u64;
            at = bits::begin(p.at);
            k += 2;
        } else {
            let x = read_size(s, at);
            fill::put(offsets, section, offset);
            fill::put(sizes, section, x.value);
            at = x.next;
            offset += x.value as u64;
            k += 1;
        }
    }
}

// From the padding on, with an order that is known to be one: the walk that judges, then the four tables.
fn read_sizes(
    s: &[u8],
    c: Cursor,
    count: u32,
    given: bool,
    lent: &[u32],
    offsets: &mut [u64],
    sizes: &mut [u32],
    order: &mut [u32],
    inverse: &mut [u32],
) -> Result<TocRead, Refusal>
    requires { (is_order count (order_by given lent.now count) ≡ true) × Room count (length offsets.old) (length sizes.old) (length order.old) (length inverse.old) }
    ensures { Done (sized_reading s.now c count (order_by given lent.now count))
        (tables offsets.old sizes.old order.old inverse.old)
        (toc_told result) offsets.new sizes.new order.new inverse.new }
{
    let w = walk_sizes(s, c, count);
    let last = w.last;
    let fault = last.fault;
    if fault.number != 0 {
        return Err(fault);
    }
    let start = last.at / 8;
    put_orders(given, lent, count, order, inverse);
    fill_sizes(s, w.first, start, count, inverse, offsets, sizes);
    Ok(TocRead::Table(Toc {
        count,
        bookmark: start,
        total_byte_size: w.total,
    }))
}

// First entry: the permuted flag; if 0, the sizes, and both orders are the identity; if 1, "order needed" with the next place.
pub fn read_toc(
    s: &[u8],
    f: Frame,
    place: u64,
    offsets: &mut [u64],
    sizes: &mut [u32],
    order: &mut [u32],
    inverse: &mut [u32],
) -> Result<TocRead, Refusal>
    ensures { Done (first_reading s.now f place (tables offsets.old sizes.old order.old inverse.old))
        (tables offsets.old sizes.old order.old inverse.old)
        (toc_told result) offsets.new sizes.new order.new inverse.new }
{
    let count = judge_place(
        s,
        f,
        place,
        offsets.len(),
        sizes.len(),
        order.len(),
        inverse.len(),
    )?;
    let flag = bits::read_bool(s, bits::begin(place));
    let next = flag.next;
    if flag.value != 0 {
        return Ok(TocRead::OrderNeeded(next.at));
    }
    let none = [0u32; 1];
    read_sizes(s, next, count, false, &none, offsets, sizes, order, inverse)
}

// Second entry: a place and a lent order (13 where it is none), on from the padding; the order and its inverse are written.
pub fn read_toc_with_order(
    s: &[u8],
    f: Frame,
    place: u64,
    lent: &[u32],
    offsets: &mut [u64],
    sizes: &mut [u32],
    order: &mut [u32],
    inverse: &mut [u32],
) -> Result<TocRead, Refusal>
    ensures { Done (second_reading s.now f place lent.now (tables offsets.old sizes.old order.old inverse.old))
        (tables offsets.old sizes.old order.old inverse.old)
        (toc_told result) offsets.new sizes.new order.new inverse.new }
{
    let count = judge_place(
        s,
        f,
        place,
        offsets.len(),
        sizes.len(),
        order.len(),
        inverse.len(),
    )?;
    order::check_order(lent, count)?;
    read_sizes(
        s,
        bits::begin(place),
        count,
        true,
        lent,
        offsets,
        sizes,
        order,
        inverse,
    )
}
