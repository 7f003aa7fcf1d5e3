// Runs stored vectors through the crate `header` and prints what it answers, a line a run.
// A record is 16 words and its input bytes. Word 0: 0 one run, 1 a run on each prefix of the input, 2 the questions on enums and flags.
// For a run, words 1 to 8: width, height, flags (1 XYB, 2 grey, 4 animation, 8 timecodes), extra channels, how many bytes and words are
// lent for name, upsampling and blending, and how many input bytes follow. For the questions: a number, and 64 bits of flags.
// A line: refusal, its place, the end, where nothing was refused every number of the record, all of them in one number, and one number
// for each lent buffer, what was not lent of it too.
#![tactic(auto)]

mod shown;

use header::Facts;
use replay::Output;
use std::io;
use std::io::Stdin;

fn main(rt: HostRuntime) -> io::Result<()> {
    let mut input = rt.stdin();
    let mut out = replay::buffered(rt.alloc(), rt.stdout())?;
    let mut r = [0u8; 64];
    for _ in 0..100000u32 {
        if input::read_full(&mut input, &mut r)? != 64 {
            break;
        }
        record(&mut input, &mut out, &r)?;
    }
    out.finish()
}

fn record(input: &mut Stdin, out: &mut Output, r: &[u8]) -> io::Result<()> {
    let what = replay::word(r, 0);
    if what == 2 {
        shown::questions(out, replay::word(r, 4), replay::long(r, 8));
        return Ok(());
    }
    let mut given = [0u8; 4096];
    let n = replay::room(&given, replay::word(r, 32));
    let s = &mut given[..n];
    input::read_full(input, s)?;
    if what == 1 {
        for k in 0..s.len() {
            one(out, r, &s[..k]);
        }
    }
    one(out, r, s);
    Ok(())
}

fn one(out: &mut Output, r: &[u8], s: &[u8]) {
    let mut name = [165u8; 1080];
    let mut upsampling = [2779096485u32; 260];
    let mut blending = [2779096485u32; 1030];
    let [a, b, c, _] = replay::four(r, 20);
    let a = replay::room(&name, a);
    let b = replay::room(&upsampling, b);
    let c = replay::room(&blending, c);
    shown::answer(
        out,
        header::read_frame_header(
            s,
            facts(r),
            &mut name[..a],
            &mut upsampling[..b],
            &mut blending[..c],
        ),
    );
    out.show(replay::sum(true, 0, &name));
    out.show(replay::sum(true, 0, &upsampling));
    out.decimal(replay::sum(true, 0, &blending));
    out.end();
}

fn facts(r: &[u8]) -> Facts {
    let [width, height, flags, extra] = replay::four(r, 4);
    Facts {
        width,
        height,
        xyb: flags % 2 == 1,
        grey: flags / 2 % 2 == 1,
        extra,
        animation: flags / 4 % 2 == 1,
        timecodes: flags / 8 % 2 == 1,
    }
}
