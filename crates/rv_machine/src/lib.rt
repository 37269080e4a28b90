//! A machine that runs RV64IM executables one instruction at a time, and in which one bit of one register
//! can be flipped before any instruction.
#![tactic(auto)]

mod memory;
mod operations;
mod processor;
mod runner;
mod streams;
mod values;

pub use processor::{Machine, Tick};
pub use runner::{Outcome, run};
pub use streams::Output;
