// What the C functions hand in and out: numbers to records, records to words in lent slices, and the status word.
#![tactic(auto)]

mod answers;
mod contents;
mod heads;
mod layouts;
mod records;

pub use answers::status;
pub use contents::{give_toc, no_room};
pub use heads::{give_record, has_room, no_record};
pub use layouts::{give_layout, section_by};
pub use records::{
    frame, give_grid, give_kind, give_number, give_place, give_rect, give_section, give_sent,
    give_touch, region, section_named,
};
