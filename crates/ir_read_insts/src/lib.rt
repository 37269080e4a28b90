//! Names, numbers, values, phis, instructions and terminators, read from tokens.
#![tactic(auto)]

mod arithmetic;
mod inst_heads;
mod instructions;
mod memory;
mod operands;
mod phi;
mod term_heads;
mod terms;
mod values;

pub use inst_heads::is_inst_word;
pub use instructions::inst_at;
pub use phi::phi_at;
pub use terms::term_at;
pub use values::{
    after_label, begins_local, global_at, integer_at, local_at, more_target_at, more_ty_val_at,
    target_at, ty_val_at, val_at,
};
