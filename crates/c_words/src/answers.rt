// What every C function here ends with: the status word, and a record's words handed out where nothing is refused.
ghost use Rattle.std.specs.Prelude.{◌≡◌, Ok, length, ltb};
ghost use Rattle.c_words.specs.Status.{status_of, is_early, roomed};
ghost use Rattle.c_words.specs.Answers.{Handed};

use bits::Refusal;

// A refusal, or none, as one word: (place mod 2^56) * 256 + number.
pub fn status(r: Refusal) -> u64
    ensures { result ≡ status_of r }
{
    let number = r.number % 256;
    (r.place % 72057594037927936) * 256 + number as u64
}

// Whether a number is of those that come before 3: 2, 1, 8, 9, 10.
fn is_early(number: u32) -> bool
    ensures { result ≡ is_early number }
{
    let first = 1 <= number && number <= 2;
    let later = 8 <= number && number <= 10;
    first || later
}

// 3 in its turn, where the lent words are too short; over the number, since the status word is (`roomed r short`).
fn with_room(r: Refusal, short: bool) -> Refusal
    ensures { result ≡ roomed r short }
{
    if !short {
        return r;
    }
    if is_early(r.number) {
        r
    } else {
        bits::refused(3, 0)
    }
}

// A record's words, unless they have no room; and the status.
pub fn give<const N: usize>(words: [u64; N], out: &mut [u64]) -> u64
    ensures { Handed N (Ok words.entry) out.old result out.new }
{
    if out.len() < N {
        return status(bits::refused(3, 0));
    }
    fill::fill(out, 0, &words);
    0
}

// The status of a refusal, beside which there are no words; 3 in its turn, where n words have no room.
pub fn refuse(r: Refusal, n: usize, out: &[u64]) -> u64
    ensures { result ≡ status_of (roomed r (ltb (length out.now) n)) }
{
    status(with_room(r, out.len() < n))
}
