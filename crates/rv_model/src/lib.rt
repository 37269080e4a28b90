//! The machine that runs RV64IM words, as a definition: what one instruction does, a run in which one bit
//! of one register is flipped, and where words stand. There is no code here: `rv_machine` runs it.
#![tactic(auto)]

/// Why an instruction traps.
#[derive(Clone, Copy, PartialEq, Eq, Debug)]
pub enum Cause {
    /// No executable word lies at the pc.
    Fetch,
    /// The word there is no instruction.
    Illegal,
    /// The bytes that are read don't lie in a readable segment.
    Load,
    /// The bytes that are written don't lie in a writable segment.
    Store,
    /// The environment has no call of this number.
    Call,
}

/// A bit flip: bit `bit` (0 to 63) of register `reg` (1 to 31) is turned just before the instruction
/// numbered `at` is tried. Instructions are numbered from 0 in the order in which they are executed.
#[derive(Clone, Copy, PartialEq, Eq, Debug)]
pub struct Flip {
    pub at: u64,
    pub reg: u8,
    pub bit: u8,
}
