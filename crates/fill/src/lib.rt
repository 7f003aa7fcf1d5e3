// Values put into lent slices, one at a place or many from a place on. A place that the slice hasn't is passed over, so each function is total, and
// the same walk serves to judge, on a short slice, and to fill.
#![tactic(auto)]

ghost use Rattle.std.specs.Prelude.{◌≡◌, min, set};
ghost use Rattle.std.proofs.lemmas.List.Edits.{sets};

// The lesser of two lengths: the library's method by the name that it has had here, a public function that may not go.
pub fn least(a: usize, b: usize) -> usize
    ensures { result ≡ min a b }
{
    a.min(b)
}

// A value at its place.
pub fn put<T: Copy>(out: &mut [T], k: usize, value: T)
    ensures { out.new ≡ set out.old k value }
{
    if k < out.len() {
        out[k] = value;
    }
}

// Values from a place on.
pub fn fill<T: Copy>(out: &mut [T], at: usize, values: &[T])
    ensures { out.new ≡ sets out.old at values.now }
{
    if out.len() <= at {
        return;
    }
    let n = values.len().min(out.len() - at);
    // By index: `copy_from_slice` takes memmove, which C's archive would need from outside.
    for i in 0..n {
        out[at + i] = values[i];
    }
}

// 32-bit words as 64-bit words from a place on.
pub fn widen(out: &mut [u64], at: usize, narrow: &[u32])
    ensures { out.new ≡ sets out.old at narrow.now }
{
    if out.len() <= at {
        return;
    }
    let n = narrow.len().min(out.len() - at);
    for i in 0..n {
        out[at + i] = u64::from(narrow[i]);
    }
}
