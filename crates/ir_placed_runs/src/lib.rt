//! Where activations stand and which blocks of memory they own, in every state of every run.
//!
//! `specs/Places.antt` says which programs are whole and where activations stand,
//! `specs/OwnedBlocks.antt` which blocks of memory are live and whose they are.
#![tactic(auto)]

mod laws;

pub use laws::{owned_blocks_stay, places_stay};
