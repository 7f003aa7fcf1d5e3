// Arrays of fields: the words of a lent table, or the bytes of a name. A place that the table hasn't is passed over, so the same walk
// serves to judge, on a small table, and to fill.
ghost use Rattle.std.specs.Prelude.{◌≡◌, false, ◌&&◌, List, ℕ, leb};
ghost use Rattle.bits.specs.Refusals.{pick, clear};
ghost use Rattle.bits.specs.Steps.{piece};
ghost use Rattle.bits.specs.Codec.{Codec, u, u32, field};
ghost use Rattle.bits.specs.Table.{read};
ghost use Rattle.header.specs.Arrays.{array};
ghost use Rattle.header.specs.Private.{Arrayed};

use bits::{
    Choices, Cursor, Piece, Read, begin, bit_count, cut_at, idle, read_bits, read_bits_if, take,
};
use fill::put;
use numbers::read_u32_if;

// How an element of an array is coded.
pub trait Coded: Copy {
    ghost codec: { Self → Codec };

    fn read_if(self, s: &[u8], c: Cursor, on: bool, default: u32) -> Read<u32>
        ensures { result ≡ field s.now on (codec self) default c };
}

// A number of so many bits.
#[derive(Clone, Copy, Debug, PartialEq, Eq)]
pub struct Bits(pub u32);

impl Coded for Bits {
    ghost codec = { λ n. u n.0 };

    fn read_if(self, s: &[u8], c: Cursor, on: bool, default: u32) -> Read<u32> {
        read_bits_if(s, c, on, self.0, default)
    }
}

impl Coded for Choices {
    ghost codec = { u32 };

    fn read_if(self, s: &[u8], c: Cursor, on: bool, default: u32) -> Read<u32> {
        read_u32_if(s, c, on, self, default)
    }
}

// count elements, of which the first limit stand there. In line, so that a caller's limit of 0 costs a channel no test (docs/PERFORMANCE.md).
#[inline(always)]
pub fn read_array<K: Coded>(
    s: &[u8],
    c: Cursor,
    limit: u32,
    count: u32,
    k: K,
    default: u32,
    out: &mut [u32],
) -> Cursor
    ensures { Arrayed (K.codec k) limit count default s.now c result out.old out.new }
{
    let mut at = c;
    for i in 0..count {
        let f = k.read_if(s, at, i < limit, default);
        put(out, i as usize, f.value);
        at = f.next;
    }
    at
}

// Four bytes at once, where four are left to read and there.
fn take_four(s: &[u8], c: Cursor, left: u32) -> Option<Piece>
    ensures { result ≡ pick (leb 4 left && clear c) (piece s.now c.at 32) None }
{
    if idle(c, 4 <= left) {
        return None;
    }
    take(s, c.at, 32)
}

// count bytes, four at once as long as there are four.
pub fn read_bytes(s: &[u8], c: Cursor, count: u32, out: &mut [u8]) -> Cursor
    ensures { Arrayed (u 8) count count 0 s.now c result out.old out.new }
{
    let mut at = c;
    let mut i: u32 = 0;
    // By hand: how many bytes a turn takes is known only once it has looked at them, which neither `for` nor `chunks` allows.
    while i < count {
        let k = i as usize;
        if let Some(x) = take_four(s, at, count - i) {
            let [b0, b1, b2, b3] = x.value.to_le_bytes();
            put(out, k, b0);
            put(out, k + 1, b1);
            put(out, k + 2, b2);
            put(out, k + 3, b3);
            at = begin(x.at);
            i += 4;
        } else {
            let f = read_bits(s, at, 8);
            put(out, k, f.value as u8);
            at = f.next;
            i += 1;
        }
    }
    at
}

// The place behind count bytes, without a look at them; where they aren't all there, the first that isn't is refused.
pub fn pass_bytes(s: &[u8], c: Cursor, count: u32) -> Cursor
    ensures { result ≡ (read (array (u 8) count count 0 (λ (x : List ℕ) (i : ℕ). 0)) s.now c).next }
{
    if idle(c, 0 < count) {
        return c;
    }
    let at = c.at;
    let end = bit_count(s);
    if end < at {
        let f = cut_at(s, at, at, 8);
        return f.next;
    }
    let room = (end - at) / 8;
    let n = count as u64;
    if n <= room {
        begin(at + 8 * n)
    } else {
        let first = at + 8 * room;
        let f = cut_at(s, first, first, 8);
        f.next
    }
}
