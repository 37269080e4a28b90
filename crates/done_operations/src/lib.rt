//! Instructions that compute, as words: each does its step, and the machine keeps the next state after it. Definitions
//! and laws; there is no code here.
#![tactic(auto)]

ghost use Rattle.done_operations.specs.Operations.{BinariesAreDone, ComparisonsAreDone};
ghost use Rattle.done_operations.specs.Operations.{ConversionsAreDone, FreezesAreDone};

/// Proves that the words of a binary operation, at any width and with any operands, do its step.
pub fn binaries_are_done()
    ensures { BinariesAreDone }
{}

/// Proves that the words of a comparison of integers do its step.
pub fn comparisons_are_done()
    ensures { ComparisonsAreDone }
{}

/// Proves that the words of a conversion do its step.
pub fn conversions_are_done()
    ensures { ConversionsAreDone }
{}

/// Proves that a copy does the step of `freeze`.
pub fn freezes_are_done()
    ensures { FreezesAreDone }
{}
