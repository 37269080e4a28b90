//! Which array or structure type a type is, by the types that names stand for, and where indices lead.
//!
//! A named type may stand for another named type, and so on. Where such a chain of names ends is found once
//! for a module, in [`Openings`].
#![tactic(auto)]

mod chains;
mod laws;
mod table;

pub use laws::indices_lead_to_one_type;
pub use table::Openings;
