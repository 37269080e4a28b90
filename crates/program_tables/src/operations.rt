//! Operations that compute a value from values and change nothing else.
use ir_tree::module::{Bin, Conv, Flags, Pred};

/// A step of a `getelementptr`.
#[derive(Clone, Copy, Debug)]
pub enum Stride {
    /// Past as many values of a size as an operand says.
    Scaled {
        /// How many bits the operand has.
        width: u8,
        /// The size of a value in bytes.
        size: u64,
    },
    /// To the field at an offset. It has no operand.
    Field {
        /// The distance in bytes from the start of the structure.
        offset: u64,
    },
}

/// An operation, apart from its operands.
#[derive(Debug, Drop)]
pub enum Operation {
    /// A binary operation on integers.
    Binary {
        /// The operation.
        operation: Bin,
        /// Its flags.
        flags: Flags,
        /// How many bits the operands and the result have.
        width: u8,
    },
    /// A comparison of two integers or two addresses.
    Compare {
        /// What it asks.
        predicate: Pred,
    },
    /// The second operand where the first one holds, else the third.
    Select,
    /// A conversion between integers.
    Convert {
        /// The conversion.
        conversion: Conv,
        /// How many bits the operand has.
        from: u8,
        /// How many bits the result has.
        to: u8,
    },
    /// The operand, which must not be poison.
    Freeze,
    /// `getelementptr`: from the address that is the first operand, with an operand more for each step that
    /// is scaled.
    Walk {
        /// Whether the result is poison outside of the block.
        inbounds: bool,
        /// The steps in order.
        strides: Vec<Stride>,
    },
}
