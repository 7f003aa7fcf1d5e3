// Skips, whose length may pass 2^64, and the extensions bundle.
ghost use Rattle.std.specs.Prelude.{◌≡◌, ◌+◌, ◌*◌, ◌^◌, ◌<◌, ◌≤◌};
ghost use Rattle.bits.specs.Codec.{skip, field};
ghost use Rattle.bits.specs.Table.{read};
ghost use Rattle.bits.specs.Extensions.{extensions, whole};

use crate::wholes::read_u64_if;
use bits::{Cursor, Sum, begin, bit_count, idle, kept, stop_cut};

// n more bits; the high half stays far from its end.
fn add_bits(sum: Sum, n: u64) -> Sum
    requires { sum.high < 2 ^ 32 }
    ensures { (whole result ≡ whole sum + n) × (result.high ≤ sum.high + 1) }
{
    if n <= u64::MAX - sum.low {
        Sum {
            high: sum.high,
            low: sum.low + n,
        }
    } else {
        Sum {
            high: sum.high + 1,
            low: n - (u64::MAX - sum.low) - 1,
        }
    }
}

// So many bits passed over, where it is asked for.
pub fn skip_bits_if(s: &[u8], c: Cursor, on: bool, n: Sum) -> Cursor
    ensures { result ≡ (field s.now on (skip (whole n)) 0 c).next }
{
    if idle(c, on) {
        return kept(c);
    }
    let at = c.at;
    let end = bit_count(s);
    if n.high != 0 {
        return stop_cut(s, at, at, n);
    }
    if end < at {
        return stop_cut(s, at, at, n);
    }
    if end - at < n.low {
        stop_cut(s, at, at, n)
    } else {
        begin(at + n.low)
    }
}

// The extensions bundle, where it is asked for: nothing of it is kept.
pub fn read_extensions_if(s: &[u8], c: Cursor, on: bool) -> Cursor
    ensures { result ≡ (read (extensions on) s.now c).next }
{
    let m = read_u64_if(s, kept(c), on, 0);
    let mut mask = m.value;
    let mut at = kept(m.next);
    let mut sum = Sum { high: 0, low: 0 };
    // While bits are left: nothing is counted, and a `for` over 64 would go on where none is left.
    while mask != 0 {
        let n = read_u64_if(s, at, mask % 2 == 1, 0);
        sum = add_bits(sum, n.value);
        at = kept(n.next);
        mask = mask / 2;
    }
    skip_bits_if(s, at, on, sum)
}
