// U32, enums, U64, and the signed reading of an unsigned number.
ghost use Rattle.std.specs.Prelude.{◌≡◌, ◌+◌, ◌*◌, ◌^◌, ◌<◌, ◌≤◌, true, ◌&&◌};
ghost use Rattle.bits.specs.Bits.{there, ahead};
ghost use Rattle.bits.specs.Refusals.{pick};
ghost use Rattle.bits.specs.Steps.{run, gives, takes, cut_at};
ghost use Rattle.bits.specs.Codec.{u32, cases, u64, chosen, more, long, field, signed};

use bits::{
    Choice, Choices, Cursor, Read, begin, cut_at, idle, kept, look_ahead, low_bits, reaches,
    refused_at, take,
};

// The choice that a selector names.
fn choose(d: Choices, k: u32) -> Choice
    ensures { result ≡ chosen d k }
{
    match k {
        0 => d.d0,
        1 => d.d1,
        2 => d.d2,
        _ => d.d3,
    }
}

// Whether a selector is there from p on, and n bits after it, given whether eight bytes are.
fn u32_is_there(s: &[u8], p: u64, n: u32, whole: bool) -> bool
    requires { whole ≡ (ahead s.now p).whole }
    ensures { result ≡ (there s.now p 2 && there s.now (p + 2) n) }
{
    n <= 32 && (whole || reaches(s, p, n + 2))
}

// A U32 that isn't there: its selector is cut, or the n bits after it.
fn cut_u32(s: &[u8], p: u64, n: u32) -> Read<u32>
    ensures { result ≡ pick (there s.now p 2) (cut_at s.now p (p + 2 + n)) (cut_at s.now p (p + 2)) }
{
    if reaches(s, p, 2) {
        cut_at(s, p, p + 2, n)
    } else {
        cut_at(s, p, p, 2)
    }
}

// U32 where it is asked for: the selector, then its choice. Both lie in the 56 bits ahead.
pub fn read_u32_if(s: &[u8], c: Cursor, on: bool, d: Choices, default: u32) -> Read<u32>
    ensures { result ≡ field s.now on (u32 d) default c }
{
    if idle(c, on) {
        return Read {
            value: default,
            next: kept(c),
        };
    }
    let at = c.at;
    let a = look_ahead(s, at);
    let e = choose(d, low_bits(a.bits, 2));
    if !u32_is_there(s, at, e.bits, a.whole) {
        return cut_u32(s, at, e.bits);
    }
    Read {
        value: e.base.wrapping_add(low_bits(a.bits >> 2, e.bits)),
        next: begin(at + 2 + (e.bits as u64)),
    }
}

// A public name of its own, as `read_u64` is; the same reading, asked for.
pub fn read_u32(s: &[u8], c: Cursor, d: Choices) -> Read<u32>
    ensures { result ≡ field s.now true (u32 d) 0 c }
{
    read_u32_if(s, c, true, d, 0)
}

// A U32 that names one of n cases, where it is asked for.
pub fn read_enum_if(s: &[u8], c: Cursor, on: bool, d: Choices, n: u32, default: u32) -> Read<u32>
    ensures { result ≡ field s.now on (cases d n) default c }
{
    if idle(c, on) {
        return Read {
            value: default,
            next: kept(c),
        };
    }
    let at = c.at;
    let x = read_u32_if(s, c, true, d, 0);
    let fault = x.next.fault;
    if fault.number != 0 {
        return x;
    }
    if n <= x.value { refused_at(5, at) } else { x }
}

// A U64 that begins at p and whose piece of n bits from q on is cut. `cut_at` answers a u32; one for both would need a trait for the 0 by a fault.
fn wide_cut(s: &[u8], p: u64, q: u64, n: u32) -> Read<u64>
    ensures { result ≡ cut_at s.now p (q + n) }
{
    let f = cut_at(s, p, q, n);
    let next = f.next;
    Read { value: 0, next }
}

// A U64 of one piece: base + u(n), begun at p, now at q.
fn short(s: &[u8], p: u64, q: u64, n: u32, base: u32) -> Read<u64>
    ensures { result ≡ run (takes n (λ x. gives (base + x))) s.now p q }
{
    let Some(x) = take(s, q, n) else {
        return wide_cut(s, p, q, n);
    };
    Read {
        value: (base as u64) + (x.value as u64),
        next: begin(x.at),
    }
}

// The end of a long U64, which stands at shift 60: a bit, and where it is one u(4).
fn last(s: &[u8], p: u64, q: u64, v: u64) -> Read<u64>
    requires { v < 2 ^ 60 }
    ensures { result ≡ run (more 0 v) s.now p q }
{
    let Some(b) = take(s, q, 1) else {
        return wide_cut(s, p, q, 1);
    };
    if b.value == 0 {
        return Read {
            value: v,
            next: begin(b.at),
        };
    }
    let Some(x) = take(s, b.at, 4) else {
        return wide_cut(s, p, b.at, 4);
    };
    Read {
        value: v | ((x.value as u64) << 60),
        next: begin(x.at),
    }
}

// A long U64: u(12), then while a one bit follows u(8) at shift 12 to 52.
fn longer(s: &[u8], p: u64, q: u64) -> Read<u64>
    ensures { result ≡ run (takes 12 (more 6)) s.now p q }
{
    let Some(x) = take(s, q, 12) else {
        return wide_cut(s, p, q, 12);
    };
    let mut v = x.value as u64;
    let mut at = x.at;
    for k in 0..6u32 {
        let Some(b) = take(s, at, 1) else {
            return wide_cut(s, p, at, 1);
        };
        if b.value == 0 {
            return Read {
                value: v,
                next: begin(b.at),
            };
        }
        let Some(y) = take(s, b.at, 8) else {
            return wide_cut(s, p, b.at, 8);
        };
        v |= (y.value as u64) << (12 + 8 * k);
        at = y.at;
    }
    last(s, p, at, v)
}

// U64 where it is asked for.
pub fn read_u64_if(s: &[u8], c: Cursor, on: bool, default: u64) -> Read<u64>
    ensures { result ≡ field s.now on u64 default c }
{
    if idle(c, on) {
        return Read {
            value: default,
            next: kept(c),
        };
    }
    let at = c.at;
    let Some(k) = take(s, at, 2) else {
        return wide_cut(s, at, at, 2);
    };
    match k.value {
        0 => Read {
            value: 0,
            next: begin(k.at),
        },
        1 => short(s, at, k.at, 4, 1),
        2 => short(s, at, k.at, 8, 17),
        _ => longer(s, at, k.at),
    }
}

pub fn read_u64(s: &[u8], c: Cursor) -> Read<u64>
    ensures { result ≡ field s.now true u64 0 c }
{
    read_u64_if(s, c, true, 0)
}

// Signed: an even n is n / 2, an odd one minus (n + 1) / 2.
pub fn unpack_signed(n: u32) -> i32
    ensures { result ≡ signed n }
{
    let half = (n / 2) as i32;
    if n % 2 == 0 { half } else { -half - 1 }
}
