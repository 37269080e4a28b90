//! Which constant may stand where a value of a type is needed.
//!
//! `ir_rules` says in `specs/Constants.antt` which constant a type has, a line for each kind; [`has_const`]
//! tells it.
#![tactic(auto)]

mod consts;
mod indices;
mod opened;
mod tables;

pub use consts::has_const;
pub use tables::TypeTables;
