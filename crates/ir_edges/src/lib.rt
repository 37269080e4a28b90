//! The edges between the blocks of a function, and the values that its instructions use.
//!
//! [`targets_of`] gives the labels that an instruction leads to, [`locals_of`] the values that it uses,
//! [`successors_of`] for each block of a function the blocks that it leads to, and [`predecessors_of`] those
//! that lead to it. The time is linear, but that a label is looked up in the logarithm of how many blocks
//! there are.
#![tactic(auto)]

mod laws;
mod locals;
mod predecessors;
mod successors;
mod targets;

pub use laws::operands_are_used;
pub use locals::locals_of;
pub use predecessors::predecessors_of;
pub use successors::successors_of;
pub use targets::targets_of;
