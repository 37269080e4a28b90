//! Types and constants, read from tokens and printed.
#![tactic(auto)]

mod depth;
mod error;
mod reach;
mod reading;

pub use depth::deep_end;
pub use error::{ReadError, place_of};
pub use ir_print_consts::{print_const, print_ty};
pub use reading::{read_const, read_ty};
