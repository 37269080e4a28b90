//! Programs, their functions, blocks and instructions, and the bytes of their globals.
use crate::operations::Operation;
use ir_model::Access;
use mem_cells::{Pointer, Value};

/// An operand.
#[derive(Clone, Copy, Debug)]
pub enum Operand {
    /// The value of this number.
    Local(usize),
    /// A constant. The address of global `g` is the start of block `g + 1`.
    Fixed(Value),
}

/// A case of a `switch`.
#[derive(Clone, Copy, Debug)]
pub struct Case {
    /// The number, without a sign.
    pub number: u64,
    /// The block that it leads to.
    pub to: usize,
}

/// What an instruction does with its operands. Blocks and functions stand by number.
#[derive(Debug, Drop)]
pub enum Action {
    /// Computes a value.
    Compute(Operation),
    /// Makes room of so many bytes until the function returns.
    Alloca {
        /// How many bytes.
        size: u64,
    },
    /// Loads from the address that is the operand.
    Load(Access),
    /// Stores the first operand at the address that is the second one.
    Store(Access),
    /// Calls a function with the operands.
    Call {
        /// The function.
        function: usize,
    },
    /// Puts out a byte.
    PutChar,
    /// Reads a byte.
    GetChar,
    /// Goes to a block.
    Jump {
        /// The block.
        to: usize,
    },
    /// Goes to a block by a condition, the operand.
    Branch {
        /// The block where it holds.
        met: usize,
        /// The block where it doesn't.
        unmet: usize,
    },
    /// Goes to a block by a number, the operand.
    Switch {
        /// The block where no case has the number.
        otherwise: usize,
        /// The cases; of two with one number the first counts.
        cases: Vec<Case>,
    },
    /// Returns without a value.
    ReturnVoid,
    /// Returns the operand.
    Return,
    /// Has no meaning.
    Unreachable,
}

/// An instruction that is no phi.
#[derive(Debug, Drop)]
pub struct Instruction {
    /// The number of the value that it gives, if it gives one.
    pub result: Option<usize>,
    /// What it does.
    pub action: Action,
    /// With what.
    pub operands: Vec<Operand>,
}

/// What a phi takes where its block is entered from a block.
#[derive(Clone, Copy, Debug)]
pub struct Input {
    /// The block that leads here.
    pub from: usize,
    /// What is taken.
    pub operand: Operand,
}

/// A phi.
#[derive(Debug, Drop)]
pub struct Phi {
    /// The number of its value.
    pub result: usize,
    /// What it takes; of two inputs from one block the first counts.
    pub inputs: Vec<Input>,
}

/// A block.
#[derive(Debug, Drop)]
pub struct Block {
    /// Its phis.
    pub phis: Vec<Phi>,
    /// Its other instructions, by position.
    pub body: Vec<Instruction>,
}

/// A function.
#[derive(Debug, Drop)]
pub struct Function {
    /// How many parameters it has. They are its first values.
    pub params: usize,
    /// How many values it has, with the parameters.
    pub values: usize,
    /// How many bytes of stack one activation of it is counted as.
    pub frame: u64,
    /// Its blocks, the entry first.
    pub blocks: Vec<Block>,
}

/// Bytes that a global has at the start.
#[derive(Debug, Drop)]
pub enum Piece {
    /// So many bytes of poison.
    Poison(u64),
    /// So many bytes that are zero.
    Zeros(u64),
    /// These bytes.
    Bytes(Vec<u8>),
    /// The eight bytes of an address.
    Word(Pointer),
}

/// All bytes that a global has at the start.
#[derive(Debug, Drop)]
pub struct GlobalBytes {
    /// The pieces, one after the other.
    pub pieces: Vec<Piece>,
}

/// What a module stands for.
#[derive(Debug, Drop)]
pub struct Program {
    /// The bytes of each global. Global `g` is block `g + 1` of memory.
    pub globals: Vec<GlobalBytes>,
    /// The functions.
    pub functions: Vec<Function>,
    /// Which of them is `main`.
    pub main: usize,
}
