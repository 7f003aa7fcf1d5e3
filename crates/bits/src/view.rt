// Fields out of bits that are known to be there: they are cut off one after another, with no test between them.
ghost use Rattle.std.specs.Prelude.{◌≡◌};
ghost use Rattle.bits.specs.View.{seen, seen_choice};

use crate::Choice;
use crate::window::low_bits;

// Bits that are known, from a place on.
#[derive(Clone, Copy)]
pub struct View {
    pub bits: u64,
    pub at: u64,
}

// A number out of them, and those behind it.
#[derive(Clone, Copy)]
pub struct Seen {
    pub value: u32,
    pub rest: View,
}

// n bits, at most 32, where they are asked for.
pub fn see(w: View, on: bool, n: u32) -> Seen
    ensures { result ≡ seen w on n }
{
    let bits = w.bits;
    let at = w.at;
    if !on {
        return Seen {
            value: 0,
            rest: View { bits, at },
        };
    }
    let k = n.min(32);
    Seen {
        value: low_bits(bits, k),
        rest: View {
            bits: bits >> k,
            at: at.wrapping_add(k as u64),
        },
    }
}

// A U32 whose selector was seen: the choice that it names, out of the bits behind it.
pub fn see_choice(selector: Seen, c: Choice) -> Seen
    ensures { result ≡ seen_choice selector c }
{
    let x = see(selector.rest, true, c.bits);
    let rest = x.rest;
    Seen {
        value: c.base.wrapping_add(x.value),
        rest,
    }
}
