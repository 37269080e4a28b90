//! Runs of programs, as the definitions of `ir_model` say them.
//!
//! [`eval`] runs a program for at most so many steps. A step takes constant time but for a few instructions that
//! look through a list, and no memory but for calls, `alloca` and output.
#![tactic(auto)]

mod activation;
mod enter;
mod machine;
mod outcome;
mod places;
mod runner;
mod start;

pub use outcome::Outcome;
pub use runner::eval;
