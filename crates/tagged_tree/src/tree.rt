//! Trees and their operations.
ghost use Rattle.std.specs.Prelude.{◌≡◌, IfOk};
ghost use Rattle.tagged_tree.specs.ShapeOf.{op_shape};

use ir_tree::module::{Bin, Conv, Flags, GlobalId, Pred, ValueId};
use std::alloc::{AllocError, Global};

/// A tree of pure operations, with a tag at each node and leaf.
#[derive(Debug, Drop)]
pub enum Tree<T> {
    /// A value of the function that is no part of this tree.
    Leaf(ValueId, T),
    /// A literal, by its 64-bit word: an integer sign-extended from its width, 0 for null, `undef` and
    /// `poison`.
    Lit(u64, T),
    /// The address that many bytes after the begin of a global.
    Addr(GlobalId, u64, T),
    /// An operation, the value that it gives, and its operands in order.
    Node(Op, ValueId, Vec<Tree<T>>, T),
}

/// The operation of a node. Each width is in bits, and `None` stands for a pointer.
#[derive(Debug, Drop)]
pub enum Op {
    /// A binary operation, its flags and the width.
    Binary(Bin, Flags, u8),
    /// `icmp` with what it asks and the width of both operands.
    Icmp(Pred, Option<u8>),
    /// `select` with the width of both arms.
    Select(Option<u8>),
    /// A conversion, with the width before and the width after.
    Convert(Conv, u8, u8),
    /// `freeze` with the width.
    Freeze(Option<u8>),
    /// `getelementptr`: whether it is `inbounds`, and one step for each index. The operands are the pointer
    /// and then the indices.
    Gep(bool, Vec<Step>),
}

/// What one index of a `getelementptr` adds to the address.
#[derive(Clone, Copy, Debug, PartialEq, Eq)]
pub enum Step {
    /// The index, of this width in bits, times this size in bytes.
    Index(u8, u64),
    /// The offset in bytes of the field that a constant index names.
    Field(u64),
}

impl Op {
    /// Makes a copy.
    pub fn copy(&self, alloc: Global) -> Result<Op, AllocError>
        ensures { IfOk result (λ op. op_shape op ≡ op_shape self.now) }
    {
        match self {
            Op::Binary(bin, flags, bits) => Ok(Op::Binary(*bin, *flags, *bits)),
            Op::Icmp(pred, bits) => Ok(Op::Icmp(*pred, *bits)),
            Op::Select(bits) => Ok(Op::Select(*bits)),
            Op::Convert(conv, before, after) => Ok(Op::Convert(*conv, *before, *after)),
            Op::Freeze(bits) => Ok(Op::Freeze(*bits)),
            Op::Gep(inbounds, steps) => Ok(Op::Gep(*inbounds, Vec::from_slice(alloc, steps)?)),
        }
    }
}
