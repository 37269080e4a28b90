//! What the instructions of a checked module do, with numbers in the place of names.
//!
//! [`Around`] is what stands around an instruction. By it operands become values by number and constants, blocks and
//! functions become numbers, and types become widths, sizes and steps.
#![tactic(auto)]

mod actions;
mod around;
mod calls;
mod operands;
mod steps;
mod switches;
mod types;

pub use around::Around;
