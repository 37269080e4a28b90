//! The blocks of a checked function, with numbers in the place of names.
//!
//! [`blocks_of`] goes through the instructions of a function once and counts the values that they give, so that
//! each result has its number without a look at the table of values.
#![tactic(auto)]

mod blocks;
mod instructions;
mod phis;

pub use blocks::blocks_of;
pub use program_actions::Around;
