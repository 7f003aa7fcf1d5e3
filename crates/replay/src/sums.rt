// All numbers of a table in one, so that a table of 65,536 takes a cell. There are two such sums: the big one takes numbers of 32 bits as they
// are and leaves a number of 52 bits.
ghost use Rattle.std.specs.Prelude.{◌≡◌, ℕ};
ghost use Rattle.replay.specs.Outputs.{shown_by, Gains};
ghost use Rattle.replay.specs.Sums.{mixed, own, pattern, summed_by, tallied};

use crate::lines::Output;
use std::io::Write;

// What counts as a number.
pub trait Summand: Copy {
    ghost number_of: { Self → ℕ };

    fn number(self) -> u64
        ensures { result ≡ number_of self };
}

impl Summand for u8 {
    ghost number_of = { λ byte. own byte };

    fn number(self) -> u64 {
        u64::from(self)
    }
}

impl Summand for u32 {
    ghost number_of = { λ word. own word };

    fn number(self) -> u64 {
        u64::from(self)
    }
}

impl Summand for u64 {
    ghost number_of = { λ long. own long };

    fn number(self) -> u64 {
        self
    }
}

// A value counts by its bits.
impl Summand for f32 {
    ghost number_of = { pattern };

    fn number(self) -> u64 {
        u64::from(pattern(self))
    }
}

// The bits of a value; 0 for what is no number.
#[tactic(auto, using(crate::proofs::Floats::eq_self))]
pub fn pattern(x: f32) -> u32
    ensures { result ≡ pattern x }
{
    if x.is_nan() { 0 } else { x.to_bits() }
}

// One more number into a sum. A flag, no closure: a closure would be a type parameter of `Tally` and of each line that has one; `mixed big` has both.
fn mix(big: bool, sum: u64, n: u64) -> u64
    ensures { result ≡ mixed big sum n }
{
    if big {
        (sum % 4294967291) * 1000003 + n % 4294967291
    } else {
        (sum % 1000003) * 31 + n % 281474976710656
    }
}

// The numbers of some things into a sum, one after the other.
#[tactic(auto, using(crate::proofs::Walks::summed_more, crate::proofs::Walks::summed_last))]
pub fn sum<T: Summand>(big: bool, sum: u64, xs: &[T]) -> u64
    ensures { result ≡ summed_by T.number_of big sum xs.now }
{
    let mut all = sum;
    for x in xs {
        all = mix(big, all, x.number());
    }
    all
}

// A sum in the making: whether it is the big one, whether each number is shown too, and what it has come to.
#[derive(Clone, Copy)]
pub struct Tally {
    pub big: bool,
    pub full: bool,
    pub sum: u64,
}

impl Tally {
    // The numbers of some things too.
    pub fn add<T: Summand>(&mut self, xs: &[T])
        ensures { self.new ≡ tallied T.number_of self.old xs.now }
    {
        self.sum = sum(self.big, self.sum, xs);
    }

    // The same, and each number is shown where all are.
    pub fn add_shown<W: Write, T: Summand>(&mut self, out: &mut Output<W>, xs: &[T])
        ensures value { self.new ≡ tallied T.number_of self.old xs.now }
        ensures output { Gains W.contents out.old (shown_by T.number_of self.old.full xs.now) out.new }
    {
        if self.full {
            out.cells(xs);
        }
        self.add(xs);
    }
}
