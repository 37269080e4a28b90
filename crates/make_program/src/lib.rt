//! The program that a checked module stands for, in code.
//!
//! [`program_of`] makes it: names become numbers, types widths and sizes, constants values. `specs/Made.antt` says
//! what is known of it.
#![tactic(auto)]

mod functions;
mod globals;
mod main_function;
mod program;

pub use program::program_of;
