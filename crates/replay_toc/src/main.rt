// Runs stored vectors through the crate `toc` and prints what it answers, a line a record.
// A record is 64 words. Words 0 to 25: which entry (0 first, 1 second); the frame's six numbers; the place, low and high word; how many bytes
// are given, how many there are, and the step of the bytes that are not given; the lengths of the four tables; how the order is made (0 the
// given words, 1 reversed), its length; a section number; x, y and pass; a kind's number, pass and group. Then 64 bytes and 16 words of
// an order, at words 32 and 48.
#![tactic(auto)]

use bits::Refusal;
use grid::Frame;
use order::{SectionNumber, SentNumber};
use replay::{BYTES, Output, WORDS, refusal_of};
use sections::{SectionPlace, TocGroupKind};
use std::io;
use toc::TocRead;

fn main(rt: HostRuntime) -> io::Result<()> {
    let mut input = rt.stdin();
    let mut out = replay::buffered(rt.alloc(), rt.stdout())?;
    let mut r = [0u8; 256];
    for _ in 0..100000u32 {
        if input::read_full(&mut input, &mut r)? != 256 {
            break;
        }
        record(&mut out, &r);
    }
    out.finish()
}

fn record(out: &mut Output, r: &[u8; 256]) {
    let mut bytes: [u8; BYTES] = replay::byte_table(0);
    let mut lent: [u32; WORDS] = replay::section_table(0);
    fill::fill(&mut bytes, 0, &r[128..192]);
    ruled(replay::word(r, 44), &mut bytes);
    make_order(r, &mut lent);
    let n = replay::room(&bytes, replay::word(r, 40));
    let m = replay::room(&lent, replay::word(r, 68));
    with_tables(out, r, &bytes[..n], &lent[..m]);
}

// Bytes of a rule; a step of 0 leaves them as they are.
fn ruled(step: u32, bytes: &mut [u8]) {
    if step == 0 {
        return;
    }
    for (i, byte) in (0..).zip(bytes.iter_mut()) {
        *byte = low(i, step);
    }
}

fn low(i: u32, step: u32) -> u8 {
    ((u64::from(i) * 40503 + u64::from(step)) / 16 % 256) as u8
}

fn make_order(r: &[u8], lent: &mut [u32]) {
    let [made, length, ..] = replay::four(r, 64);
    if made == 0 {
        replay::put_words(lent, r, 192, 16);
    } else {
        replay::reversed(lent, length);
    }
}

fn with_tables(out: &mut Output, r: &[u8], s: &[u8], lent: &[u32]) {
    let [a, b, c, d] = replay::four(r, 48);
    let mut offsets: [u64; WORDS] = replay::section_table(7);
    let mut sizes: [u32; WORDS] = replay::section_table(7);
    let mut order: [u32; WORDS] = replay::section_table(7);
    let mut inverse: [u32; WORDS] = replay::section_table(7);
    let a = replay::room(&offsets, a);
    let b = replay::room(&sizes, b);
    let c = replay::room(&order, c);
    let d = replay::room(&inverse, d);
    let offsets = &mut offsets[..a];
    let sizes = &mut sizes[..b];
    let order = &mut order[..c];
    let inverse = &mut inverse[..d];
    let f = replay::frame(r, 4);
    let place = replay::long(r, 28);
    let t = match replay::word(r, 0) {
        0 => toc::read_toc(s, f, place, offsets, sizes, order, inverse),
        _ => toc::read_toc_with_order(s, f, place, lent, offsets, sizes, order, inverse),
    };
    show(out, t);
    out.show(replay::sum(false, 0, offsets));
    out.show(replay::sum(false, 0, sizes));
    out.show(replay::sum(false, 0, order));
    out.show(replay::sum(false, 0, inverse));
    find(out, r, f);
    look(out, f, replay::word(r, 72), offsets, sizes, order, inverse);
}

// 0, the count, the data start and the total; or 1 and the place; or 2, the refusal and its place.
fn show(out: &mut Output, t: Result<TocRead, Refusal>) {
    match t {
        Ok(TocRead::Table(x)) => {
            out.cells(&[0, x.count]);
            out.show(x.bookmark);
            out.show(x.total_byte_size);
        }
        Ok(TocRead::OrderNeeded(p)) => {
            out.show(1);
            out.show(p);
        }
        Err(e) => {
            out.show(2);
            out.refusal(e);
        }
    }
}

// The section of a kind, the kind of a section, and the section of a sample.
fn find(out: &mut Output, r: &[u8], f: Frame) {
    let [number, x, y, pass] = replay::four(r, 72);
    let [k, pass_idx, group_idx, _] = replay::four(r, 88);
    section(
        out,
        sections::section_of_kind(f, kind(k, pass_idx, group_idx)),
    );
    let a = sections::kind_of(f, SectionNumber(number));
    let n = sections::kind_numbers(a.unwrap_or(TocGroupKind::All));
    out.cells(&[refusal_of(a).number, n.kind, n.pass_idx, n.group_idx]);
    section(out, sections::section_of_sample(f, x, y, pass));
}

// Numbers over 4 are a GroupPass here, as the vectors have it.
fn kind(k: u32, pass_idx: u32, group_idx: u32) -> TocGroupKind {
    match k {
        0 => TocGroupKind::All,
        1 => TocGroupKind::LfGlobal,
        2 => TocGroupKind::LfGroup(group_idx),
        3 => TocGroupKind::HfGlobal,
        _ => TocGroupKind::GroupPass {
            pass_idx,
            group_idx,
        },
    }
}

fn section(out: &mut Output, a: Result<SectionNumber, Refusal>) {
    out.cells(&[refusal_of(a).number, a.unwrap_or(SectionNumber(0)).0]);
}

// A section's offset and size, its sent number, and the section of a sent number.
fn look(
    out: &mut Output,
    f: Frame,
    n: u32,
    offsets: &[u64],
    sizes: &[u32],
    order: &[u32],
    inverse: &[u32],
) {
    let p = sections::section_at(f, offsets, sizes, SectionNumber(n));
    let place = p.unwrap_or(SectionPlace { offset: 0, size: 0 });
    out.show(u64::from(refusal_of(p).number));
    out.show(place.offset);
    let t = sections::sent_of_section(f, order, SectionNumber(n));
    out.cells(&[
        place.size,
        refusal_of(t).number,
        t.unwrap_or(SentNumber(0)).0,
    ]);
    section(out, sections::section_of_sent(f, inverse, SentNumber(n)));
    out.end();
}
