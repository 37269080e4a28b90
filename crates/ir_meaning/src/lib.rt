//! The meaning of modules: what their programs come to on an input.
//!
//! `specs/Meaning.antt` says, without the code, what a module comes to in so many steps, by the program that
//! `ir_program` says it is and by the runs of `ir_model`.
#![tactic(auto)]

mod laws;
mod meaning;

pub use ir_eval::Outcome;
pub use laws::modules_that_end_are_evaluated;
pub use meaning::eval;
