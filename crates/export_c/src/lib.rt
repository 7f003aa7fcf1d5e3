// The static library for C: each function of the crate `export` under its symbol, with its clauses. `include/hingevale.h` declares them.
#![tactic(auto)]

mod contents;
mod geometry;
mod heading;
mod listed;
mod lookups;
mod questions;
