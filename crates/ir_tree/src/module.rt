//! Modules: named types, globals, declared and defined functions, blocks and instructions.
use crate::names::{NameId, Names};
use crate::types::{Const, Ty};

/// An operand: a value of the function, or a constant.
#[derive(Debug, PartialEq, Eq, Drop)]
pub enum Val {
    /// `%x`
    Local(NameId),
    /// A constant.
    Fixed(Const),
}

/// A binary operation on integers.
#[derive(Clone, Copy, Debug, PartialEq, Eq)]
pub enum Bin {
    /// `add`
    Add,
    /// `sub`
    Sub,
    /// `mul`
    Mul,
    /// `shl`
    Shl,
    /// `udiv`
    Udiv,
    /// `sdiv`
    Sdiv,
    /// `lshr`
    Lshr,
    /// `ashr`
    Ashr,
    /// `urem`
    Urem,
    /// `srem`
    Srem,
    /// `and`
    And,
    /// `or`
    Or,
    /// `xor`
    Xor,
}

/// The flags of a binary operation; one that its instruction doesn't have is false.
#[derive(Clone, Copy, Debug, PartialEq, Eq)]
pub struct Flags {
    /// No unsigned wrap: the result is poison where it doesn't fit without a sign.
    pub nuw: bool,
    /// No signed wrap: the result is poison where it doesn't fit with a sign.
    pub nsw: bool,
    /// The result is poison where something is lost.
    pub exact: bool,
}

/// What `icmp` asks.
#[derive(Clone, Copy, Debug, PartialEq, Eq)]
pub enum Pred {
    /// `eq`
    Eq,
    /// `ne`
    Ne,
    /// `ugt`, without signs
    Ugt,
    /// `uge`, without signs
    Uge,
    /// `ult`, without signs
    Ult,
    /// `ule`, without signs
    Ule,
    /// `sgt`, with signs
    Sgt,
    /// `sge`, with signs
    Sge,
    /// `slt`, with signs
    Slt,
    /// `sle`, with signs
    Sle,
}

/// A conversion between integer types.
#[derive(Clone, Copy, Debug, PartialEq, Eq)]
pub enum Conv {
    /// `zext`
    Zext,
    /// `sext`
    Sext,
    /// `trunc`
    Trunc,
}

/// An operand with its type.
#[derive(Debug, Drop)]
pub struct TyVal {
    /// The type.
    pub ty: Ty,
    /// The operand.
    pub val: Val,
}

/// A value that a phi takes, and the block that it comes from.
#[derive(Debug, Drop)]
pub struct PhiIn {
    /// The value.
    pub val: Val,
    /// The block that leads here.
    pub from: NameId,
}

/// A case of a `switch`.
#[derive(Debug, Drop)]
pub struct Case {
    /// The type of the number.
    pub ty: Ty,
    /// The number.
    pub value: i128,
    /// The block that it leads to.
    pub to: NameId,
}

/// What an instruction does. The fields stand in the order of the text.
#[derive(Debug, Drop)]
pub enum Body {
    /// `phi` with its type and inputs.
    Phi(Ty, Vec<PhiIn>),
    /// A binary operation, its flags, the type and both operands.
    Binary(Bin, Flags, Ty, Val, Val),
    /// `icmp` with what it asks, the type and both operands.
    Icmp(Pred, Ty, Val, Val),
    /// `select` with the condition and both arms.
    Select(TyVal, TyVal, TyVal),
    /// A conversion from a type to another.
    Convert(Conv, Ty, Val, Ty),
    /// `freeze`
    Freeze(Ty, Val),
    /// `alloca` with the type and how many of it.
    Alloca(Ty, i128),
    /// `load` with the type and the address.
    Load(Ty, TyVal),
    /// `store` with the value and the address.
    Store(TyVal, TyVal),
    /// `getelementptr`: whether it is `inbounds`, the type that is stepped through, the pointer and the
    /// indices.
    Gep(bool, Ty, TyVal, Vec<TyVal>),
    /// `call` with the type of the result, the callee and the arguments.
    Call(Ty, Val, Vec<TyVal>),
    /// `br` to a block.
    Jump(NameId),
    /// `br` on a condition, to the first block where it is true, else to the second.
    Branch(TyVal, NameId, NameId),
    /// `switch` on a value, with the block for all else and the cases.
    Switch(TyVal, NameId, Vec<Case>),
    /// `ret void`
    RetVoid,
    /// `ret` with the value.
    Ret(TyVal),
    /// `unreachable`
    Unreachable,
}

/// An instruction.
#[derive(Debug, Drop)]
pub struct Inst {
    /// The name of its result, if it has one.
    pub result: Option<NameId>,
    /// What it does.
    pub body: Body,
}

/// A block: phis, other instructions, and at its end a branch, `switch`, `ret` or `unreachable`.
#[derive(Debug, Drop)]
pub struct Block {
    /// Its label.
    pub name: NameId,
    /// Its instructions in order.
    pub insts: Vec<Inst>,
}

/// A parameter of a defined function.
#[derive(Debug, Drop)]
pub struct Param {
    /// Its type.
    pub ty: Ty,
    /// Its name, if it has one.
    pub name: Option<NameId>,
}

/// A function with its blocks.
#[derive(Debug, Drop)]
pub struct Function {
    /// Its name.
    pub name: NameId,
    /// The type of what it returns.
    pub ret: Ty,
    /// Its parameters in order.
    pub params: Vec<Param>,
    /// Its blocks in order, the entry first.
    pub blocks: Vec<Block>,
}

/// A global variable or constant.
#[derive(Debug, Drop)]
pub struct GlobalItem {
    /// Its name.
    pub name: NameId,
    /// Whether it is `constant` and not `global`.
    pub constant: bool,
    /// The type of its content.
    pub ty: Ty,
    /// Its content at the start.
    pub init: Const,
}

/// A function that is declared and not defined.
#[derive(Debug, Drop)]
pub struct Declare {
    /// Its name.
    pub name: NameId,
    /// The type of what it returns.
    pub ret: Ty,
    /// The types of its parameters in order.
    pub params: Vec<Ty>,
}

/// A type with a name.
#[derive(Debug, Drop)]
pub struct NamedTy {
    /// The name.
    pub name: NameId,
    /// The type.
    pub ty: Ty,
}

/// A module. Each kind of item stands in the order of the text.
#[derive(Drop)]
pub struct Module {
    /// The names that the numbers in the other fields stand for.
    pub names: Names,
    /// The named types.
    pub types: Vec<NamedTy>,
    /// The globals.
    pub globals: Vec<GlobalItem>,
    /// The declared functions.
    pub declares: Vec<Declare>,
    /// The defined functions.
    pub functions: Vec<Function>,
}

/// The number of a value of a function: its parameters first, then each result in the order of the text.
#[derive(Clone, Copy, Debug, PartialEq, Eq)]
pub struct ValueId(pub u32);

/// The number of a block of a function, in the order of the text.
#[derive(Clone, Copy, Debug, PartialEq, Eq)]
pub struct BlockId(pub u32);

/// The number of a defined function of a module, in the order of the text.
#[derive(Clone, Copy, Debug, PartialEq, Eq)]
pub struct FuncId(pub u32);

/// The number of a global of a module, in the order of the text.
#[derive(Clone, Copy, Debug, PartialEq, Eq)]
pub struct GlobalId(pub u32);
