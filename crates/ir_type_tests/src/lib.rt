//! Tests of types and of parts of instructions, one for each definition of the rules.
#![tactic(auto)]

mod cases;
mod consts;
mod numbers;
mod sizes;
mod types;

pub use cases::are_cases;
pub use consts::{is_plain, number_of};
pub use numbers::{bits_of, converts, is_literal};
pub use sizes::{has_room, is_sized};
pub use types::{
    integer_width, is_bit, is_integer, is_integer_of, is_pointer, is_returned, is_scalar,
    is_storable, is_void,
};
