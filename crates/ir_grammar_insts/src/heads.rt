//! What the first word of an instruction or a terminator says of it.

use ir_tree::module::{Bin, Conv};

/// What the first word of an instruction says of it.
#[derive(Clone, Copy, Debug)]
pub enum InstHead {
    /// An operation with the flags `nuw` and `nsw`.
    WrappingWord(Bin),
    /// An operation with the flag `exact`.
    ExactWord(Bin),
    /// An operation without flags.
    PlainWord(Bin),
    /// `icmp`.
    IcmpWord,
    /// `select`.
    SelectWord,
    /// `zext` or `sext`.
    ExtendWord(Conv),
    /// `trunc`.
    TruncWord,
    /// `freeze`.
    FreezeWord,
    /// `alloca`.
    AllocaWord,
    /// `load`.
    LoadWord,
    /// `store`.
    StoreWord,
    /// `getelementptr`.
    ElementWord,
    /// `call`.
    CallWord,
}

/// What the first word of a terminator says of it.
#[derive(Clone, Copy, Debug)]
pub enum TermHead {
    /// `br`.
    BrWord,
    /// `switch`.
    SwitchWord,
    /// `ret`.
    RetWord,
    /// `unreachable`.
    UnreachableWord,
}
