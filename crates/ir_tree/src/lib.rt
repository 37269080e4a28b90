//! The types of a module of textual LLVM IR, with names by number.
//!
//! A module keeps each name once, in [`Names`], and has numbers in its other places. Its meaning, apart
//! from how its names are numbered, is its shape (`specs/Shape.antt`): two modules are equal where their
//! shapes are.
#![tactic(auto)]

pub mod module;
pub mod names;
pub mod parsed;
pub mod types;
