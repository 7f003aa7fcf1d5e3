// The bit reader: pieces of a field, fields of up to 32 bits, Bool and padding, each read at a cursor that keeps the first fault. A function
// given a cursor with a fault reads nothing and hands it on, so a bundle is straight-line code. Every function is total: a cursor past the
// end, a width over 32 and a long slice have an answer too.
#![tactic(auto)]

mod fields;
mod pieces;
mod view;
mod window;

ghost use Rattle.std.specs.Prelude.{◌≡◌, ◌&&◌, ◌||◌};
ghost use Rattle.bits.specs.Refusals.{refusal, none, start};
ghost use Rattle.bits.specs.Codec.{val, plus, one_of};
ghost use Rattle.bits.specs.Table.{failed};

pub use fields::{idle, read_bits, read_bits_if, read_bool, read_bool_if, zero_pad_to_byte};
pub use pieces::{Piece, bit_count, cut, cut_at, reaches, refused_at, stop, stop_cut, take};
pub use view::{Seen, View, see, see_choice};
pub use window::{Ahead, look_ahead, low_bits};

// Why something was refused, and at which bit. Number 0: nothing was. A number, no enum: vectors of replay_bits and replay_filter hand faults of any
// number in, and C's status word has it (`status_of`).
#[derive(Clone, Copy, Debug, PartialEq, Eq)]
pub struct Refusal {
    pub number: u32,
    pub place: u64,
}

// A bit place, and the first fault on the way to it. It keeps its fault, no `Result`: `field s on k d c` says of each field what it hands on of a
// cursor with a fault of any number, and the vectors of replay_bits and replay_filter hand such cursors in. The bytes and the cursor stay two
// parameters: so public functions of bits, numbers and filter take them, and a cursor in a struct goes through memory (`kept`).
#[derive(Clone, Copy)]
pub struct Cursor {
    pub at: u64,
    pub fault: Refusal,
}

// What was read, and the cursor after it: a number, a Bool as 0 or 1, an f16 as its 16-bit pattern, or a whole bundle.
#[derive(Clone, Copy)]
pub struct Read<T> {
    pub value: T,
    pub next: Cursor,
}

// One choice of a U32: base + u(bits); a constant has no bits.
#[derive(Clone, Copy)]
pub struct Choice {
    pub base: u32,
    pub bits: u32,
}

// The four choices of a U32, by its selector. Four fields, no array: so `chosen` and `one_of` of specs/Codec.antt name them.
#[derive(Clone, Copy)]
pub struct Choices {
    pub d0: Choice,
    pub d1: Choice,
    pub d2: Choice,
    pub d3: Choice,
}

// A number of bits in two halves: high * 2^64 + low. No u128: `whole` and the theorem on `skip_bits_if` are over the halves.
#[derive(Clone, Copy)]
pub struct Sum {
    pub high: u64,
    pub low: u64,
}

pub fn refused(number: u32, place: u64) -> Refusal
    ensures { result ≡ refusal number place }
{
    Refusal { number, place }
}

// Nothing was refused.
pub fn accepted() -> Refusal
    ensures { result ≡ none }
{
    refused(0, 0)
}

// A cursor at a place, with no fault yet.
pub fn begin(place: u64) -> Cursor
    ensures { result ≡ start place }
{
    let fault = accepted();
    Cursor { at: place, fault }
}

// A cursor as it is, put together again: where a field is passed by nothing is copied through memory (a whole copy is slower: docs/PERFORMANCE.md).
pub fn kept(c: Cursor) -> Cursor
    ensures { result ≡ c }
{
    let fault = c.fault;
    Cursor {
        at: c.at,
        fault: Refusal {
            number: fault.number,
            place: fault.place,
        },
    }
}

// A constant as a choice of a U32.
pub fn constant(c: u32) -> Choice
    ensures { result ≡ val c }
{
    Choice { base: c, bits: 0 }
}

// Four choices of a U32, each a base and so many bits.
pub fn one_of(b0: u32, n0: u32, b1: u32, n1: u32, b2: u32, n2: u32, b3: u32, n3: u32) -> Choices
    ensures { result ≡ one_of (plus b0 n0) (plus b1 n1) (plus b2 n2) (plus b3 n3) }
{
    Choices {
        d0: Choice { base: b0, bits: n0 },
        d1: Choice { base: b1, bits: n1 },
        d2: Choice { base: b2, bits: n2 },
        d3: Choice { base: b3, bits: n3 },
    }
}

// A refusal on what was read, so many bits back, unless there was one before.
pub fn refuse_if(c: Cursor, bad: bool, number: u32, back: u64) -> Cursor
    ensures { result ≡ failed bad number back c }
{
    if fields::idle(c, bad) {
        return c;
    }
    let at = c.at;
    let fault = refused(number, at.saturating_sub(back));
    Cursor { at, fault }
}

// `&&` and `||` by the names that they have had here: public functions, which may not go.
pub fn both(a: bool, b: bool) -> bool
    ensures { result ≡ (a && b) }
{
    a && b
}

pub fn either(a: bool, b: bool) -> bool
    ensures { result ≡ (a || b) }
{
    a || b
}
