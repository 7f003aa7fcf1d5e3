// The test on a channel's two weights, in exact whole numbers.
ghost use Rattle.std.specs.Prelude.{◌≡◌, ◌+◌};
ghost use Rattle.bits.specs.Half.{scaled};
ghost use Rattle.filter.specs.Weights.{above, below, unbalanced};

// The size of an f16 times 2^24, from its pattern.
fn size(h: u32) -> u64
    ensures { result ≡ scaled h }
{
    let e = (h >> 10) & 31;
    let m = h & 1023;
    if e == 0 {
        m as u64
    } else {
        ((1024 + m) as u64) << (e - 1)
    }
}

// What a weight adds to the sum above zero. Two functions, no sign as a parameter: it would only be compared with the bit again.
fn part_above(h: u32) -> u64
    ensures { result ≡ above h }
{
    if (h >> 15) & 1 == 1 { 0 } else { size(h) }
}

// What it adds below zero.
fn part_below(h: u32) -> u64
    ensures { result ≡ below h }
{
    if (h >> 15) & 1 == 1 { size(h) } else { 0 }
}

// Whether the exact sum of two f16, given as patterns, is -1/4: scaled by 2^24, -4,194,304.
pub fn is_unbalanced(w0: u32, w1: u32) -> bool
    ensures { result ≡ unbalanced w0 w1 }
{
    let a = part_above(w0);
    let b = part_above(w1);
    let c = part_below(w0);
    let d = part_below(w1);
    a + b + 4194304 == c + d
}
