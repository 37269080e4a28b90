//! What is around an instruction whose flow is looked at.

use crate::edges::Edges;
use ir_names::FunctionNames;
use ir_tree::module::{Function, Module};

/// What is around an instruction: its module and its function, with the tables of the function.
#[derive(Clone, Copy)]
pub struct Around<'a> {
    /// The module.
    pub module: &'a Module,
    /// The function.
    pub function: &'a Function,
    /// The values and the blocks of the function, and what names stand for in it.
    pub names: &'a FunctionNames,
    /// The edges between its blocks.
    pub edges: &'a Edges,
}
