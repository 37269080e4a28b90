//! Names that are given twice: by items of a module, and in a function.
#![tactic(auto)]

mod clashes;
mod entries;
mod first;
mod given;

pub use clashes::first_item_clash;
pub use first::first_of;
pub use given::first_repeat;
