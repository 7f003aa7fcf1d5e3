// Bytes, numbers and columns put into lent bytes from an index on. A place that the bytes haven't is passed over, so that the same walk
// serves to measure, on bytes that are too few, and to write. Each answers the index behind what it put. A struct of the bytes and the index, tried,
// is no plainer: each method would promise besides that it still holds the same bytes (`ghost_name`), and each loop keep that.
ghost use Rattle.std.specs.Prelude.{[], ◌∷◌, ◌+◌, ◌*◌, ◌≡◌, ◌≤◌, length, map};
ghost use Rattle.decimal.specs.Decimal.{decimal};
ghost use Rattle.listing.specs.Private.{Put};
ghost use Rattle.listing.specs.Text.{column, joined, kind_name};

use sections::TocGroupKind;

pub fn put_bytes(out: &mut [u8], at: usize, text: &[u8]) -> usize
    requires at_bound { at ≤ 4611686018427387904 }
    requires text_len_bound { length text.now ≤ 4096 }
    ensures { Put out.old at text.now out.new result }
{
    fill::fill(out, at, text);
    at + text.len()
}

// The line feed that ends a line.
pub fn put_feed(out: &mut [u8], at: usize) -> usize
    requires { at ≤ 4611686018427387904 }
    ensures { Put out.old at (10 ∷ []) out.new result }
{
    fill::put(out, at, b'\n');
    at + 1
}

pub fn put_number(out: &mut [u8], at: usize, n: u64) -> usize
    requires { at ≤ 4611686018427387904 }
    ensures { Put out.old at (decimal n) out.new result × (result ≤ at + 20) }
{
    put_bytes(out, at, decimal::write_number(n).text())
}

// A tab, and a number or `-`.
pub fn put_column(out: &mut [u8], at: usize, shown: Option<u64>) -> usize
    requires { at ≤ 2305843009213693952 }
    ensures { Put out.old at (9 ∷ column shown) out.new result × (result ≤ at + 21) }
{
    match shown {
        None => put_bytes(out, at, b"\t-"),
        Some(n) => {
            fill::put(out, at, b'\t');
            put_number(out, at + 1, n)
        }
    }
}

// Columns to the end of a line, a tab before each; then the line feed.
pub fn put_columns(out: &mut [u8], at: usize, columns: &[Option<u64>]) -> usize
    requires { (at ≤ 1152921504606846976) × (length columns.now ≤ 4096) }
    ensures { Put out.old at (joined (map column columns.now)) out.new result × (result ≤ at + 21 * length columns.now + 1) }
{
    let mut end = at;
    for &shown in columns {
        end = put_column(out, end, shown);
    }
    put_feed(out, end)
}

// A kind by its name.
#[tactic(auto, unfolding(crate::specs::Text::kind_name))]
fn name_of(kind: TocGroupKind) -> &'static [u8]
    ensures { result.now ≡ kind_name kind }
{
    match kind {
        TocGroupKind::All => b"All",
        TocGroupKind::LfGlobal => b"LfGlobal",
        TocGroupKind::LfGroup(_) => b"LfGroup",
        TocGroupKind::HfGlobal => b"HfGlobal",
        TocGroupKind::GroupPass { .. } => b"GroupPass",
    }
}

// A tab, and a kind by its name.
pub fn put_name(out: &mut [u8], at: usize, kind: TocGroupKind) -> usize
    requires { at ≤ 2305843009213693952 }
    ensures { Put out.old at (9 ∷ kind_name kind) out.new result × (result ≤ at + 10) }
{
    fill::put(out, at, b'\t');
    put_bytes(out, at + 1, name_of(kind))
}
