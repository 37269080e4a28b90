//! Tells of each instruction whether its types are proper.
//!
//! An instruction is looked at with what is [`Around`] it: its module, its function, and the tables of both.
//! The rules are those of `ir_rules`; each function here is named after what it looks at.
#![tactic(auto)]

mod around;
mod calls;
mod ends;
mod insts;
mod memory;
mod operands;
mod values;

pub use around::Around;
