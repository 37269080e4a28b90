//! Addresses and values, as memory takes and gives them.

/// An address.
#[derive(Clone, Copy, Debug, PartialEq, Eq)]
pub struct Pointer {
    /// The number of a block of memory.
    pub block: u64,
    /// The distance in bytes from its start, modulo 2^64.
    pub offset: u64,
}

/// A value that lies in memory.
#[derive(Clone, Copy, Debug, PartialEq, Eq)]
pub enum Value {
    /// An integer: how many bits it has, and its number below 2 to the power of that.
    Integer(u8, u64),
    /// An address.
    Address(Pointer),
    /// Poison.
    Poison,
}

/// Why an access is refused.
#[derive(Clone, Copy, Debug, PartialEq, Eq)]
pub enum Fault {
    /// Not all of the bytes lie in the block.
    OutOfBounds,
    /// The block is dead.
    Dead,
}
