//! Types and constants, read from tokens.
#![tactic(auto)]

mod const_heads;
mod constants;
mod type_heads;
mod types;

pub use const_heads::flags_at;
pub use constants::{const_at, typed_at};
pub use type_heads::name_number;
pub use types::type_at;
