//! A use, and the number by which it is kept.
use ir_tree::module::BlockId;

/// Where a value is used.
#[derive(Clone, Copy, Debug, PartialEq, Eq)]
pub struct UseAt {
    /// The block.
    pub block: BlockId,
    /// The number of the instruction in the block, from 0, phis counted.
    pub inst: u32,
    /// The number of the operand, from 0, in the order of the instruction's text; a callee isn't
    /// counted.
    pub operand: u32,
}

/// The number of a use that is in a chain.
#[derive(Clone, Copy, Debug, PartialEq, Eq)]
pub struct Site(pub u32);
