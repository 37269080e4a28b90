//! Whether a module is proper and within the limits.
//!
//! [`check`] looks at names, types, the flow, `main` and the limits, in this order, and answers a [`Checked`],
//! which keeps what was found: its module is proper and within the limits, and the tables of its names are
//! made. [`weight`] and [`frame`] say how much of the limits a module and a function take.
#![tactic(auto)]

mod checked;
mod checks;
mod error;
mod laws;
mod main_function;

pub use checked::Checked;
pub use checks::check;
pub use error::CheckError;
pub use ir_limits::{frame, weight};
pub use ir_proper::Which;
pub use laws::{answers_are_alone, proper_modules_are_accepted};
