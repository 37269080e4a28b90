//! Whether the flow of a module is proper, and where it isn't first.
//!
//! The rules are those of `ir_proper`: no branch leads to a first block, a phi has an input for each
//! predecessor of its block, and each value is there where it is used, whatever path leads to the use.
//! [`first_flow_fault`] looks for the first instruction at which one of them fails.
#![tactic(auto)]

mod around;
mod edges;
mod faults;
mod insts;
mod phis;
mod places;
mod there;

pub use around::Around;
pub use edges::Edges;
pub use faults::first_flow_fault;
