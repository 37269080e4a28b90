//! The form that a module has by the grammar, without the grammar: how wide integers are, that each defined
//! function has a block, and how instructions stand in a block.
//!
//! `specs/Types.antt` says it of types and constants, `specs/Instructions.antt` of instructions,
//! `specs/Modules.antt` of blocks, functions and modules (`HasForm`). The functions have no code: their contracts
//! are the laws.
#![tactic(auto)]

mod laws;

pub use laws::{blocks_have_order, parts_have_form};
