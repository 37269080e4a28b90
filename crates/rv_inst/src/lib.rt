//! The words of RV64I and the M extension (RISC-V Unprivileged ISA): each of the 63 instructions by its
//! name and operands, its 32-bit word both ways, its assembly text, and the registers that it reads and writes.
#![tactic(auto)]

mod assembly;
mod fields;
mod forms;
mod instruction;
mod opcodes;
mod table;
mod words;

pub use assembly::text;
pub use forms::{kind_of, operands_of};
pub use instruction::{Form, Rv};
pub use table::{Group, Kind, Operands, group_of};
pub use words::{decode, encode, reads, words_are_distinct, writes};
