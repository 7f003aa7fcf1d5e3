// The facts line: numbers with a tab between two and a line feed behind the last. Its length is that of the list of limits.
ghost use Rattle.std.specs.Prelude.{◌≡◌, ltb, false, IfSome, IfNone};
ghost use Rattle.bits.specs.Refusals.{pick};
ghost use Rattle.listing_job.specs.Line.{line_read, good_line};
ghost use Rattle.listing_job.specs.Private.{Valued, Lined};

use header::Facts;

// How many numbers the line has.
const COUNT: usize = 7;

// The facts of a good line, and the index behind it.
#[derive(Clone, Copy)]
pub struct FactsLine {
    pub facts: Facts,
    pub next: usize,
}

// The byte that ends a number, where so many of the line's numbers are read with it.
fn stop_of(read: usize, count: usize) -> u8
    ensures { result ≡ pick (ltb read count) 9 10 }
{
    if read < count { b'\t' } else { b'\n' }
}

// The numbers of a line by their limits, where all are good, and the index behind the line.
fn read_line(s: &[u8], limits: &[u64; COUNT]) -> Option<([u64; COUNT], usize)>
    ensures good { IfSome result (λ r. Valued s.now limits.now r.0 r.1) }
    ensures bad { IfNone result ((line_read limits.now s.now).good ≡ false) }
{
    let mut values = [0u64; COUNT];
    let mut at: usize = 0;
    // A range: tried as `values.iter_mut().zip(limits)`, whose lifetimes get no proof yet.
    for i in 0..COUNT {
        let n = decimal::number_at(s, at, stop_of(i + 1, COUNT), limits[i]);
        values[i] = n.number?;
        at = n.next;
    }
    Some((values, at))
}

// Width, height, XYB, grey, extra channels, animation, timecodes: the most that each may be, and what each is.
pub fn facts_line(s: &[u8]) -> Option<FactsLine>
    ensures good { IfSome result (λ r. Lined s.now r) }
    ensures bad { IfNone result (good_line s.now ≡ false) }
{
    let limits: [u64; COUNT] = [4294967295, 4294967295, 1, 1, 4294967295, 1, 1];
    let (values, next) = read_line(s, &limits)?;
    let [width, height, xyb, grey, extra, animation, timecodes] = values;
    let facts = Facts {
        width: width as u32,
        height: height as u32,
        xyb: xyb == 1,
        grey: grey == 1,
        extra: extra as u32,
        animation: animation == 1,
        timecodes: timecodes == 1,
    };
    Some(FactsLine { facts, next })
}
