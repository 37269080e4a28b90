//! Where the indices of a `getelementptr` lead, as steps of numbers.
//!
//! [`TypeSteps`] is made once for a module. It keeps the size of the elements of each array and the offset of
//! each field of each structure that a name stands for, so that a step takes constant time.
#![tactic(auto)]

mod index;
mod laid;
mod sizes;
mod steps;

pub use index::Index;
pub use steps::TypeSteps;
