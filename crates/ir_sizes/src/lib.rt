//! The size of a type and where a field begins, found without memory.
//!
//! Each call follows the names anew, so what asks often makes an `ir_layout::Layouts` once.
#![tactic(auto)]

mod laws;
mod nested;
mod sizes;

pub use laws::names_nest_no_deeper;
pub use sizes::{offset_of, size_of};
