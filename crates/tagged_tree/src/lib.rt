//! The trees that a compiler makes of pure instructions, with a tag at each node and leaf.
//!
//! A tag says how a value is kept: by which scheme, in which version, or in which place. A pass goes from
//! one kind of tag to the next by [`retagging::retag`], and [`retagging::erase`] gives the tree without
//! tags.
#![tactic(auto)]

pub mod retagging;
pub mod tags;
pub mod tree;

pub use retagging::{erase, retag};
pub use tags::{Place, Retag, Scheme, Tag, Ver};
pub use tree::{Op, Step, Tree};
