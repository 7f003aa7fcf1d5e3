// Numbers in their coded forms, each read at a cursor: U32, enums, U64, signed numbers, f16; and the two that keep no number, skips and
// the extensions bundle. As below, a function given a cursor with a fault reads nothing and hands it on.
#![tactic(auto)]

mod halves;
mod skips;
mod wholes;

pub use halves::{f16_to_f32, read_f16_if};
pub use skips::{read_extensions_if, skip_bits_if};
pub use wholes::{read_enum_if, read_u32, read_u32_if, read_u64, read_u64_if, unpack_signed};
