//! Operations on values of which three versions are kept in slots of a frame, under one flip: the same words
//! are taken three times, each time on one version. Definitions and laws; there is no code here.
#![tactic(auto)]

ghost use Rattle.flip_versions.specs.Operations.{OperationsRun, CopiesRun, ConstantsRun};
ghost use Rattle.flip_versions.specs.Operations.{DefinedHold, OthersStay};

/// States that three versions of an operation on two values make three versions of its result, for any code
/// that computes, and any slots.
pub fn operations_run()
    ensures { OperationsRun }
{}

/// States that three versions of a copy make three versions of the value.
pub fn copies_run()
    ensures { CopiesRun }
{}

/// States that a constant that is made three times is kept in three versions.
pub fn constants_run()
    ensures { ConstantsRun }
{}

/// States that the slots that a result goes to hold its versions, and that of each other slot is known what
/// was known.
pub fn results_are_kept()
    ensures own { DefinedHold }
    ensures others { OthersStay }
{}
