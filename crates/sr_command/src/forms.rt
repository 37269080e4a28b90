//! The forms of words. Each only reads, and makes a job.

pub mod compile;
pub mod disasm;
pub mod evaluate;
pub mod execute;
pub mod print;
