// What the C functions of the static library do, over numbers and lent slices; the crate `export_c` gives each its symbol. A function that
// can refuse answers one status word, and hands a record out as words in lent slices, which only an acceptance writes.
// `include/hingevale.h` declares them, with the order of the words.
#![tactic(auto)]

mod contents;
mod geometry;
mod heading;
mod listed;
mod lookups;
mod questions;

pub use contents::{hingevale_read_toc, hingevale_read_toc_with_order};
pub use geometry::{
    hingevale_group_idx_from_coord, hingevale_group_rect, hingevale_is_group_collides_region,
    hingevale_is_lf_group_collides_region, hingevale_lf_group_idx_from_group_idx,
    hingevale_lf_group_rect, hingevale_measure, hingevale_sample_height, hingevale_sample_width,
};
pub use heading::hingevale_read_frame_header;
pub use listed::hingevale_list;
pub use lookups::{
    hingevale_kind_of, hingevale_layout_of, hingevale_section_at, hingevale_section_in,
    hingevale_section_of_kind, hingevale_section_of_sample, hingevale_section_of_sent,
    hingevale_sent_of_section,
};
pub use questions::{
    hingevale_can_reference, hingevale_is_keyframe, hingevale_noise, hingevale_patches,
    hingevale_skip_adaptive_lf_smoothing, hingevale_splines, hingevale_use_lf_frame,
};
