//! The real outside: the files of the system as a store, and standard output as a sink.
//!
//! They tell no content, so no contract says what a disk or a terminal holds; they count each fault.
#![tactic(auto)]

mod edge;

pub use edge::{DirStore, StdSink};
