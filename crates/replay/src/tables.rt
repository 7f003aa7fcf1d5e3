// Tables to lend: made, filled with what a record says, and how much of one is lent.
ghost use Rattle.std.specs.Prelude.{◌≡◌, min, length, replicate};
ghost use Rattle.std.proofs.lemmas.List.Edits.{sets};
ghost use Rattle.replay.specs.Counts.{IsPrefixLen};
ghost use Rattle.replay.specs.Words.{words_at, down};

use crate::words::number;

// How long a table is: of numbers, room for four more than there can be sections; of bytes, a table of contents as long.
pub const WORDS: usize = 65540;

pub const BYTES: usize = 270000;

// A table of one value.
pub fn table<T: Copy, const N: usize>(value: T) -> [T; N]
    ensures { result ≡ replicate N value }
{
    [value; N]
}

// The table of numbers that the programs lend; its promise says how long.
pub fn section_table<T: Copy>(value: T) -> [T; WORDS]
    ensures { result ≡ replicate 65540 value }
{
    table(value)
}

// The table of bytes that they lend, the same.
pub fn byte_table(byte: u8) -> [u8; BYTES]
    ensures { result ≡ replicate 270000 byte }
{
    table(byte)
}

// How much is lent of a slice: as much as is asked for, as far as it goes.
pub fn room<T>(xs: &[T], n: u32) -> usize
    ensures value { result ≡ min n (length xs.now) }
    ensures in_bounds { IsPrefixLen result xs.now }
{
    xs.len().min(n as usize)
}

// The numbers of a record from an index on.
#[tactic(auto, using(crate::proofs::Walks::placing_all))]
pub fn put_words(out: &mut [u32], s: &[u8], at: u32, n: u32)
    ensures { out.new ≡ sets out.old 0 (words_at s.now at n) }
{
    let start = at as usize;
    for i in 0..n as usize {
        fill::put(out, i, number(s, start + 4 * i));
    }
}

// n - 1, n - 2, .., 0
#[tactic(auto, using(crate::proofs::Walks::placing_more, crate::proofs::Walks::placing_all))]
pub fn reversed(out: &mut [u32], n: u32)
    ensures { out.new ≡ sets out.old 0 (down n) }
{
    for i in 0..n {
        fill::put(out, i as usize, n - 1 - i);
    }
}
