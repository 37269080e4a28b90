//! Texts of LLVM IR that are accepted: from bytes to a module that is proper and within the limits, or to the
//! first reason why there is none.
//!
//! What compiles or evaluates a text reads it by [`check_source`]. `specs/Checks.antt` says, without the code,
//! which texts are accepted.
#![tactic(auto)]

mod laws;
mod texts;

pub use laws::proper_texts_are_accepted;
pub use texts::{Refusal, check_source};
