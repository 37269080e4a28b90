//! The uses of each value of a function, in lists that change in constant time.
#![tactic(auto)]

pub mod chain;
mod link;
mod lists;
pub mod uses;

pub use chain::UseChain;
pub use uses::{Site, UseAt};
