//! Texts with their words written out, to which the laws of words under one flip apply: their premises can be
//! met. Definitions and laws; there is no code here.
#![tactic(auto)]

ghost use Rattle.flip_examples.specs.Addition.{AdditionHolds};
ghost use Rattle.flip_examples.specs.Program.{ProgramHolds};
ghost use Rattle.flip_examples.specs.Fetch.{FetchHolds};

/// States that a text of 42 words adds two values in three versions and fetches one of them, whatever flip
/// outside its window points comes.
pub fn an_addition_holds()
    ensures { AdditionHolds }
{}

/// States that a program of 66 words, with a constant, a copy, an operation and an end, survives every flip
/// outside a list that has all window points of its text.
pub fn a_program_holds()
    ensures { ProgramHolds }
{}

/// States that three words fetch the right one of three copies in registers.
pub fn a_fetch_holds()
    ensures { FetchHolds }
{}
