//! Programs as code has them: names turned into numbers, types into widths and sizes, constants into values.
//!
//! [`Program`] is what a module stands for. Its parts are those of the definitions of programs
//! (`ir_model/specs/Programs.antt`); `specs/Shapes.antt` says which definition each part stands for.
#![tactic(auto)]

mod operations;
mod program;

pub use mem_cells::{Pointer, Value};
pub use operations::{Operation, Stride};
pub use program::{
    Action, Block, Case, Function, GlobalBytes, Input, Instruction, Operand, Phi, Piece, Program,
};
