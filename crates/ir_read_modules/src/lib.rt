//! Blocks, signatures, named types, globals and declared functions, read from tokens.
#![tactic(auto)]

mod ahead;
mod blocks;
mod item_heads;
mod items;
mod label;
mod others;
mod parameters;
mod single;

pub use ahead::start_at;
pub use blocks::{EntryBlock, LabelledBlock, Lines, block_at, entry_at, lines_at};
pub use items::{Signature, declare_line_at, global_line_at, signature_at, type_line_at};
