//! The operations of programs on values, as the definitions of `ir_model` say them.
//!
//! An operation takes the values of its operands where they lie: constants from the instruction, others from
//! the values of the activation.
#![tactic(auto)]

mod numbers;
mod operands;
mod operations;
mod pointers;

pub use operands::{operand, value_of};
pub use operations::compute;
