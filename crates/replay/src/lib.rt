// What the programs that run stored vectors share: numbers out of a record, tables to lend, tables in one number, and lines.
#![tactic(auto)]

mod lines;
mod sums;
mod tables;
mod words;

pub use lines::{Output, buffered, refusal_of};
pub use sums::{Summand, Tally, pattern, sum};
pub use tables::{BYTES, WORDS, byte_table, put_words, reversed, room, section_table, table};
pub use words::{four, frame, long, size, word};
