// Runs the stored vectors of the bit reader: a record of 128 bytes each on standard input, a line of numbers each on standard output.
// tools/vectors/bits.py wrote both files; it says where the vectors come from and what a record holds.
#![tactic(auto)]

use bits::{Choice, Choices, Cursor, Read, Sum};
use replay::Output;
use std::io;

fn main(rt: HostRuntime) -> io::Result<()> {
    let mut input = rt.stdin();
    let mut out = replay::buffered(rt.alloc(), rt.stdout())?;
    let mut r = [0u8; 128];
    for _ in 0..100000u32 {
        if input::read_full(&mut input, &mut r)? != 128 {
            break;
        }
        record(&mut out, &r);
    }
    out.finish()
}

fn record(out: &mut Output, r: &[u8; 128]) {
    let [kind, on, at, fault] = replay::four(r, 0);
    let c = Cursor {
        at: u64::from(at),
        fault: bits::refused(fault, 7),
    };
    let end = 64 + (replay::word(r, 56) % 65) as usize;
    run(out, r, kind, on == 1, &r[64..end], c);
}

fn run(out: &mut Output, r: &[u8], kind: u32, on: bool, s: &[u8], c: Cursor) {
    let [a, b, ..] = replay::four(r, 16);
    match kind {
        0 => field(out, bits::read_bits_if(s, c, on, a, b)),
        1 => field(out, bits::read_bool_if(s, c, on, b)),
        2 => field(out, numbers::read_u32_if(s, c, on, choices(r), b)),
        3 => field(out, numbers::read_enum_if(s, c, on, choices(r), a, b)),
        4 => {
            let w = numbers::read_u64_if(s, c, on, replay::long(r, 24));
            out.show(w.value);
            cursor(out, w.next);
        }
        5 => signed(out, numbers::unpack_signed(a)),
        6 => field(out, numbers::read_f16_if(s, c, on, b)),
        7 => last(out, u64::from(replay::pattern(numbers::f16_to_f32(a)))),
        8 => cursor(out, bits::zero_pad_to_byte(s, c)),
        9 => cursor(
            out,
            numbers::skip_bits_if(
                s,
                c,
                on,
                Sum {
                    high: replay::long(r, 32),
                    low: replay::long(r, 24),
                },
            ),
        ),
        _ => cursor(out, numbers::read_extensions_if(s, c, on)),
    }
}

fn choices(r: &[u8]) -> Choices {
    let [base0, bits0, base1, bits1] = replay::four(r, 24);
    let [base2, bits2, base3, bits3] = replay::four(r, 40);
    Choices {
        d0: Choice {
            base: base0,
            bits: bits0,
        },
        d1: Choice {
            base: base1,
            bits: bits1,
        },
        d2: Choice {
            base: base2,
            bits: bits2,
        },
        d3: Choice {
            base: base3,
            bits: bits3,
        },
    }
}

fn field(out: &mut Output, f: Read<u32>) {
    out.show(u64::from(f.value));
    cursor(out, f.next);
}

fn cursor(out: &mut Output, c: Cursor) {
    out.show(c.at);
    out.show(u64::from(c.fault.number));
    last(out, c.fault.place);
}

// A number below 0 is shown as ~k for -1 - k.
fn signed(out: &mut Output, z: i32) {
    if z < 0 {
        out.text(b"~");
    }
    last(out, u64::from(replay::size(z)));
}

// The last number of a line.
fn last(out: &mut Output, n: u64) {
    out.decimal(n);
    out.end();
}
