//! What the constants of a module stand for: values, and the bytes that globals have at the start.
//!
//! [`Constants`] is made once for a module. It keeps the sizes of globals, so that an address that is written as
//! steps from a global is found in time by its text.
#![tactic(auto)]

mod contents;
mod indices;
mod pieces;
mod rooms;
mod values;
mod walks;

pub use indices::width_of;
pub use values::Constants;
