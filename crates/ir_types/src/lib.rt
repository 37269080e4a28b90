//! Whether the names and the types of a module are proper, and where they fail first.
//!
//! The rules are those of `ir_rules`. Names are looked at first; types only where all names are proper.
#![tactic(auto)]

mod check;
mod declares;
mod error;
mod faults;
mod instructions;
mod items;
mod laws;
mod names;
mod types;

pub use check::{check_types, check_types_with};
pub use declares::is_named;
pub use error::TypeError;
pub use ir_sizes::{offset_of, size_of};
pub use laws::{answers_are_alone, operands_have_their_kinds, proper_modules_have_no_faults};
