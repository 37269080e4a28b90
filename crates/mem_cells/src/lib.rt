//! The memory of programs: blocks of bytes, numbers and addresses loaded and stored there.
//!
//! `Mem` does what the definitions of `ir_model` say of memory. A load or a store takes constant time
//! and no memory, and a block of so many bytes takes three times as many.
#![tactic(auto)]

mod blocks;
pub mod cells;
mod laws;
pub mod memory;
mod slots;
pub mod values;

pub use cells::Cells;
pub use laws::shown_blocks_are_counted;
pub use memory::Mem;
pub use values::{Fault, Pointer, Value};
