//! Whole programs under one flip: the stack pointer is made, a sequence runs, and the program ends.
//! Definitions and laws; there is no code here.
#![tactic(auto)]

ghost use Rattle.flip_programs.specs.Programs.{ProgramsSurvive};

/// States that a program whose code has a law of its own survives every flip outside a list that has all
/// window points of its text, whatever its input.
pub fn programs_survive()
    ensures { ProgramsSurvive }
{}
