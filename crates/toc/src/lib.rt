// The table of contents, from `src/data/toc.rs`: both entries that read it, and the inverse of an order.
#![tactic(auto)]

mod orders;
mod reading;

ghost use Rattle.std.specs.Prelude.{◌≡◌};
ghost use Rattle.toc.specs.Reading.{single_entry};

pub use orders::invert;
pub use reading::{read_toc, read_toc_with_order};

// What an accepted table answers: how many sections, the data start (the Rust's `bookmark`) and the sum of the sizes.
#[derive(Clone, Copy, Debug, PartialEq, Eq)]
pub struct Toc {
    pub count: u32,
    pub bookmark: u64,
    pub total_byte_size: u64,
}

// What reading a table comes to: a table, or "order needed" with the place after the flag.
#[derive(Clone, Copy, Debug, PartialEq, Eq)]
pub enum TocRead {
    Table(Toc),
    OrderNeeded(u64),
}

impl Toc {
    // Whether the frame has only one section.
    pub fn is_single_entry(self) -> bool
        ensures { result ≡ single_entry self }
    {
        self.count <= 1
    }
}
