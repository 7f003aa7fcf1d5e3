// Reads the beginnings of frames that an encoder wrote: the header, then the table of contents at its end, and prints what is found.
// A record is 16 words, the frame's bytes up to its data, and the numbers of a lent order. Words 0 to 8: how many numbers are lent (none:
// the table needs no order), width, height, flags (1 XYB, 2 grey, 4 animation, 8 timecodes), extra channels, the place after the order's
// coded form, two of no use, and how many bytes follow.
// Lines: the header's refusal, its place and end, and the six numbers of its frame; the answer of each entry; then for each section
// kind, pass, group, sent number, offset and size.
#![tactic(auto)]

use bits::Refusal;
use grid::Frame;
use header::Facts;
use order::{SectionNumber, SentNumber};
use replay::{Output, WORDS};
use sections::{SectionPlace, TocGroupKind};
use std::io;
use std::io::Stdin;
use toc::TocRead;

// Where a header ends, and its frame.
#[derive(Clone, Copy)]
struct Beginning {
    end: u64,
    frame: Frame,
}

// What is shown beside a refusal.
const NO_FRAME: Frame = Frame {
    width: 0,
    height: 0,
    upsampling: 0,
    lf_level: 0,
    group_size_shift: 0,
    num_passes: 0,
};

fn main(rt: HostRuntime) -> io::Result<()> {
    let mut input = rt.stdin();
    let mut out = replay::buffered(rt.alloc(), rt.stdout())?;
    let mut r = [0u8; 64];
    for _ in 0..100000u32 {
        if input::read_full(&mut input, &mut r)? != 64 {
            break;
        }
        record(&mut input, &mut out, &r)?;
    }
    out.finish()
}

fn record(input: &mut Stdin, out: &mut Output, r: &[u8]) -> io::Result<()> {
    let mut given = [0u8; 4096];
    let mut numbers = [0u8; 4096];
    let n = replay::room(&given, replay::word(r, 32));
    let m = replay::room(&numbers, replay::word(r, 0) % 1025 * 4);
    one(input, out, r, &mut given[..n], &mut numbers[..m])
}

fn one(
    input: &mut Stdin,
    out: &mut Output,
    r: &[u8],
    s: &mut [u8],
    numbers: &mut [u8],
) -> io::Result<()> {
    input::read_full(input, s)?;
    input::read_full(input, numbers)?;
    let h = head(out, s, facts(r));
    tables(out, s, h.frame, h.end, None);
    let m = replay::word(r, 0);
    if 0 < m {
        let mut lent: [u32; WORDS] = replay::section_table(0);
        replay::put_words(&mut lent, numbers, 0, m);
        let n = replay::room(&lent, m);
        let place = u64::from(replay::word(r, 20));
        tables(out, s, h.frame, place, Some(&lent[..n]));
    }
    Ok(())
}

fn facts(r: &[u8]) -> Facts {
    let [width, height, flags, extra] = replay::four(r, 4);
    Facts {
        width,
        height,
        xyb: flags % 2 == 1,
        grey: flags / 2 % 2 == 1,
        extra,
        animation: flags / 4 % 2 == 1,
        timecodes: flags / 8 % 2 == 1,
    }
}

fn head(out: &mut Output, s: &[u8], facts: Facts) -> Beginning {
    let mut name = [0u8; 1071];
    let mut upsampling = [0u32; 256];
    let mut blending = [0u32; 1024];
    match header::read_frame_header(s, facts, &mut name, &mut upsampling, &mut blending) {
        Ok(a) => begun(out, bits::accepted(), a.end, a.header.frame()),
        Err(refusal) => begun(out, refusal, 0, NO_FRAME),
    }
}

fn begun(out: &mut Output, refusal: Refusal, end: u64, f: Frame) -> Beginning {
    out.refusal(refusal);
    out.show(end);
    out.cells(&[
        f.width,
        f.height,
        f.upsampling,
        f.lf_level,
        f.group_size_shift,
        f.num_passes,
    ]);
    out.end();
    Beginning { end, frame: f }
}

// The first entry where no order is lent, else the second.
fn tables(out: &mut Output, s: &[u8], f: Frame, place: u64, lent: Option<&[u32]>) {
    let mut offsets: [u64; WORDS] = replay::section_table(0);
    let mut sizes: [u32; WORDS] = replay::section_table(0);
    let mut order: [u32; WORDS] = replay::section_table(0);
    let mut inverse: [u32; WORDS] = replay::section_table(0);
    let t = match lent {
        None => toc::read_toc(
            s,
            f,
            place,
            &mut offsets,
            &mut sizes,
            &mut order,
            &mut inverse,
        ),
        Some(lent) => toc::read_toc_with_order(
            s,
            f,
            place,
            lent,
            &mut offsets,
            &mut sizes,
            &mut order,
            &mut inverse,
        ),
    };
    let count = answered(out, t);
    let n = replay::room(&order, count);
    for i in 0..count {
        row(out, f, SectionNumber(i), &offsets, &sizes, &order[..n]);
    }
}

// 0, the count, the data start and the total; or 1 and the place; or 2, the refusal and its place. How many sections there are to show.
fn answered(out: &mut Output, t: Result<TocRead, Refusal>) -> u32 {
    let count = match t {
        Ok(TocRead::Table(x)) => {
            out.cells(&[0, x.count]);
            out.show(x.bookmark);
            out.show(x.total_byte_size);
            x.count
        }
        Ok(TocRead::OrderNeeded(p)) => {
            out.show(1);
            out.show(p);
            0
        }
        Err(e) => {
            out.show(2);
            out.refusal(e);
            0
        }
    };
    out.end();
    count
}

fn row(
    out: &mut Output,
    f: Frame,
    n: SectionNumber,
    offsets: &[u64],
    sizes: &[u32],
    order: &[u32],
) {
    let kind = sections::kind_of(f, n).unwrap_or(TocGroupKind::All);
    let k = sections::kind_numbers(kind);
    let sent = sections::sent_of_section(f, order, n).unwrap_or(SentNumber(0));
    let place = sections::section_at(f, offsets, sizes, n);
    let p = place.unwrap_or(SectionPlace { offset: 0, size: 0 });
    out.cells(&[k.kind, k.pass_idx, k.group_idx, sent.0]);
    out.show(p.offset);
    out.show(u64::from(p.size));
    out.end();
}
