// Kinds of section and what is asked of sections: the section of a kind or of a sample, the kind of a section, its bytes, and its sent number.
#![tactic(auto)]

mod kinds;
mod lookups;

pub use kinds::{kind_numbers, kind_of, section_of_kind, section_of_sample};
pub use lookups::{section_at, section_of_sent, sent_of_section};

// The kind of a section.
#[derive(Clone, Copy, Debug, PartialEq, Eq)]
pub enum TocGroupKind {
    All,
    LfGlobal,
    LfGroup(u32),
    HfGlobal,
    GroupPass { pass_idx: u32, group_idx: u32 },
}

// A kind as numbers, which C and the vectors have of it: All 0, LfGlobal 1, LfGroup 2, HfGlobal 3, GroupPass 4, with its pass and its group (or LF
// group), else 0.
#[derive(Clone, Copy, Debug, PartialEq, Eq)]
pub struct KindNumbers {
    pub kind: u32,
    pub pass_idx: u32,
    pub group_idx: u32,
}

// Where a section's data begins, and how many bytes it has.
#[derive(Clone, Copy, Debug, PartialEq, Eq)]
pub struct SectionPlace {
    pub offset: u64,
    pub size: u32,
}
