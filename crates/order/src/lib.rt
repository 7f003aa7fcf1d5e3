// Orders of sections, as the rules for sections have them: order[section] = sent number (the Rust's `original_to_bitstream`), and its
// inverse[sent number] = section (`bitstream_to_original`). What a lent order must be, and the two kinds of number, which only these two
// tables turn into one another.
#![tactic(auto)]

ghost use Rattle.std.specs.Prelude.{◌≡◌, ◌&&◌, ◌≤◌, length};
ghost use Rattle.order.specs.Order.{all_below, distinct, is_order, checked};
ghost use Rattle.order.specs.Private.{Unmarked};
ghost use Rattle.order.specs.Numbers.{entry_at, sent_of, section_of, word_or_refused, sent_or_refused, section_or_refused};
ghost use Rattle.bits.specs.Refusals.{answered};

use bits::Refusal;

// The number of a section in the frame's own sequence: LfGlobal, LfGroups, HfGlobal, then for each pass its groups.
#[derive(Clone, Copy, Debug, PartialEq, Eq)]
pub struct SectionNumber(pub u32);

// The number of a section in the sequence in which it is sent.
#[derive(Clone, Copy, Debug, PartialEq, Eq)]
pub struct SentNumber(pub u32);

// Whether every entry is below n and none occurs twice, by a mark for each number that has occurred: one walk.
fn mark_all(order: &[u32], n: usize, marks: &mut [u8]) -> bool
    requires { (length order.now ≡ n) × Unmarked n marks.old }
    ensures { result ≡ (all_below n order.now && distinct order.now) }
{
    for entry in order {
        let k = *entry as usize;
        if n <= k {
            return false;
        }
        if marks[k] != 0 {
            return false;
        }
        marks[k] = 1;
    }
    true
}

// Whether the entries are a permutation of 0 to count - 1. The marks are two tables of a fixed size, since nothing here takes memory from a heap;
// a small frame doesn't pay for the marks of a large one.
fn is_order(order: &[u32], count: u32) -> bool
    requires { count ≤ 65536 }
    ensures { result ≡ is_order count order.now }
{
    let n = count as usize;
    if order.len() != n {
        return false;
    }
    if n <= 512 {
        let mut few = [0u8; 512];
        return mark_all(order, n, &mut few);
    }
    let mut marks = [0u8; 65536];
    mark_all(order, n, &mut marks)
}

// Judges a lent order: over 65,536 sections is 10; not exactly count entries, or no permutation of 0 to count - 1, is 13.
pub fn check_order(order: &[u32], count: u32) -> Result<(), Refusal>
    ensures { result ≡ answered (checked count order.now) tt }
{
    if 65536 < count {
        return Err(bits::refused(10, 0));
    }
    if is_order(order, count) {
        Ok(())
    } else {
        Err(bits::refused(13, 0))
    }
}

// A word of an order table. The rules have every lent order judged whole, so this walks the table once: it takes no constant time.
fn look(table: &[u32], count: u32, index: u32) -> Result<u32, Refusal>
    ensures { result ≡ word_or_refused (entry_at table.now count index) }
{
    check_order(table, count)?;
    if count <= index {
        return Err(bits::refused(14, 0));
    }
    let i = index as usize;
    Ok(table[i])
}

// Two public names over one `look`: the types keep section and sent numbers apart.
// From a section number to its sent number, through the order: 10, 13, then 14 where the frame has no such section.
pub fn sent_of(order: &[u32], count: u32, section: SectionNumber) -> Result<SentNumber, Refusal>
    ensures { result ≡ sent_or_refused (sent_of order.now count section) }
{
    let word = look(order, count, section.0)?;
    Ok(SentNumber(word))
}

// From a sent number to its section number, through the inverse: 10, 13, then 14 where nothing has that sent number.
pub fn section_of(inverse: &[u32], count: u32, sent: SentNumber) -> Result<SectionNumber, Refusal>
    ensures { result ≡ section_or_refused (section_of inverse.now count sent) }
{
    let word = look(inverse, count, sent.0)?;
    Ok(SectionNumber(word))
}
