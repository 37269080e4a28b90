//! What a module and its functions count against the limits, and the first limit that a module passes.
//!
//! `ir_proper/specs/Limits.antt` says what is counted for each limit and how much of it is allowed.
#![tactic(auto)]

mod counts;
mod frames;
mod globals;
mod laws;
mod passing;
mod weights;

pub use frames::{frame, frame_in};
pub use laws::{functions_have_frames, limits_have_one_answer};
pub use passing::{Passed, first_passed, most_of};
pub use weights::weight;
