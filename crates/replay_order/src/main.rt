// Runs stored vectors through the crate `order` and the inverse of `toc`, and prints what they answer, a line a record.
// A record is 15 words: how the order is made (0 the given words; 1 reversed, with one word changed), its length, the count, the table's
// length, a number, and ten words.
#![tactic(auto)]

use order::{SectionNumber, SentNumber};
use replay::{Output, WORDS, refusal_of};
use std::io;

fn main(rt: HostRuntime) -> io::Result<()> {
    let mut input = rt.stdin();
    let mut out = replay::buffered(rt.alloc(), rt.stdout())?;
    let mut r = [0u8; 60];
    for _ in 0..100000u32 {
        if input::read_full(&mut input, &mut r)? != 60 {
            break;
        }
        record(&mut out, &r);
    }
    out.finish()
}

fn record(out: &mut Output, r: &[u8]) {
    let [made, length, count, room] = replay::four(r, 0);
    let mut entries: [u32; WORDS] = replay::section_table(0);
    let mut table: [u32; WORDS] = replay::section_table(7);
    make(r, made, length, &mut entries);
    let n = replay::room(&entries, length);
    let m = replay::room(&table, room);
    let table = &mut table[..m];
    answers(out, &entries[..n], count, replay::word(r, 16), table);
    show(out, table);
}

fn make(r: &[u8], made: u32, length: u32, entries: &mut [u32]) {
    if made == 0 {
        replay::put_words(entries, r, 20, 10);
        return;
    }
    replay::reversed(entries, length);
    fill::put(entries, replay::word(r, 20) as usize, replay::word(r, 24));
}

// The check, the inverse, a section's sent number through the order, and a sent number's section through the table.
fn answers(out: &mut Output, entries: &[u32], count: u32, number: u32, table: &mut [u32]) {
    out.refusal(refusal_of(order::check_order(entries, count)));
    let inverted = toc::invert(entries, count, table);
    let sent = order::sent_of(entries, count, SectionNumber(number));
    let section = order::section_of(table, count, SentNumber(number));
    out.cells(&[
        refusal_of(inverted).number,
        refusal_of(sent).number,
        sent.unwrap_or(SentNumber(0)).0,
        refusal_of(section).number,
        section.unwrap_or(SectionNumber(0)).0,
    ]);
}

// All of the table in one number, then its first eight words.
fn show(out: &mut Output, t: &[u32]) {
    out.decimal(replay::sum(false, 0, t));
    for x in t.iter().take(8) {
        out.text(b"\t");
        out.decimal(u64::from(*x));
    }
    out.end();
}
