//! The points where a program stays vulnerable to one flipped bit of a register: which places of a text they
//! are, whether one is listed, and the text of a list.
#![tactic(auto)]

mod choose;
mod instructions;
mod list;
mod marks;
mod walk;

pub use choose::{all_points, points};
pub use list::{Point, outside, points_text, text_determines_points};
