// Runs stored inputs through the whole listing job and writes each output.
// A record is three words, then bytes: how many bytes the input has, how many of them are given (the others are 0), and how many bytes are
// lent for the output. Of each the program writes the answer (length, refusal, place) and a sum of the lent bytes behind the text, which
// were 7, and then the text.
#![tactic(auto)]

use replay::{BYTES, Output, refusal_of};
use std::io;
use std::io::Stdin;

fn main(rt: HostRuntime) -> io::Result<()> {
    let mut input = rt.stdin();
    let mut lines = replay::buffered(rt.alloc(), rt.stdout())?;
    let mut r = [0u8; 12];
    for _ in 0..100000u32 {
        if input::read_full(&mut input, &mut r)? != 12 {
            break;
        }
        record(&mut input, &mut lines, &r)?;
    }
    lines.finish()
}

fn record(from: &mut Stdin, lines: &mut Output, r: &[u8]) -> io::Result<()> {
    let mut input: [u8; BYTES] = replay::byte_table(0);
    let mut out: [u8; BYTES] = replay::byte_table(7);
    let [n, given, m, _] = replay::four(r, 0);
    let given = replay::room(&input, given);
    input::read_full(from, &mut input[..given])?;
    let n = replay::room(&input, n);
    let m = replay::room(&out, m);
    work(lines, &input[..n], &mut out[..m]);
    Ok(())
}

fn work(lines: &mut Output, s: &[u8], out: &mut [u8]) {
    let answer = listing_job::list_frame(s, out);
    let length = answer.unwrap_or(0);
    lines.show(length as u64);
    lines.refusal(refusal_of(answer));
    let (text, behind) = out.split_at(length.min(out.len()));
    lines.show(replay::sum(false, 0, behind));
    lines.end();
    lines.text(text);
}
