//! Arithmetic on integers of 1 to 64 bits, as the definitions of `ir_model` say it.
//!
//! A number of a width is its bits, below 2 to the power of that. Operations take and give such numbers,
//! in constant time and without memory.
#![tactic(auto)]

mod comparisons;
pub mod computed;
mod conversions;
mod lost;
mod operations;
mod widths;

pub use comparisons::holds;
pub use computed::Computed;
pub use conversions::{converted, extended};
pub use operations::binary;
