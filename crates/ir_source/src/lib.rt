//! Texts of LLVM IR: from bytes to the module that they spell, or to the first reason why there is none.
//!
//! `specs/Texts.antt` says, without the code, which module a text has and why a text is refused. What
//! compiles, evaluates or prints a text cites it.
#![tactic(auto)]

mod error;
mod laws;
mod source;

pub use error::SourceError;
pub use laws::texts_are_read_in_one_way;
pub use source::read_source;
