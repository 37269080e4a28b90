//! Operations on operands of any kind, of which three versions are kept, under one flip. Definitions and laws; there
//! is no code here.
#![tactic(auto)]

ghost use Rattle.flip_operations.specs.Operations.{TwoOperandsRun, OneOperandRuns};

/// States that three versions of two operands, wherever they are, make three versions of a result, for any code that
/// computes.
pub fn two_operands_run()
    ensures { TwoOperandsRun }
{}

/// States the same of one operand.
pub fn one_operand_runs()
    ensures { OneOperandRuns }
{}
