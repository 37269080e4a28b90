//! Which names of a module are used and not there.
//!
//! Whether the names of a type, a constant, an operand, an instruction or an item's head are there is told
//! by the tables of `ir_names`; [`first_missing`] returns where the first one stands that isn't.
#![tactic(auto)]

mod bodies;
mod constants;
mod heads;
mod missing;
mod operands;
mod types;

pub use bodies::body_there;
pub use constants::const_there;
pub use heads::{declare_there, global_there, head_there};
pub use missing::first_missing;
pub use operands::{ty_val_there, val_there};
pub use types::ty_there;
