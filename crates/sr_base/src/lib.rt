//! The outside of the compiler: stores of named files and sinks of bytes, each with what a contract may
//! know of it, and the two that live in memory and fail where they are told to.
#![tactic(auto)]

mod mem_sink;
mod mem_store;
mod outside;

pub use mem_sink::MemSink;
pub use mem_store::MemStore;
pub use outside::{Sink, SinkError, Store, StoreError, put_all};
