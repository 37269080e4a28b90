//! Branches and switches on values of which three versions are kept, under one flip. Definitions and laws; there
//! is no code here.
#![tactic(auto)]

ghost use Rattle.flip_branches.specs.Branches.{TestsTurn, BranchesTurn, UnreachableStays};
ghost use Rattle.flip_branches.specs.Switches.{SwitchesTurn};

/// States that a value is fetched and compared with 0, and the machine goes on as it is 0 or not: at the next word
/// or at an offset, and so to any two places.
pub fn branches_turn()
    ensures tests { TestsTurn }
    ensures branches { BranchesTurn }
{}

/// States that the words for a place that isn't reached stay there.
pub fn unreachable_stays()
    ensures { UnreachableStays }
{}

/// States that a switch goes on at the first case with the value's number, or where none has it: a case takes its
/// number away from each version of the value, and compares the right difference with 0.
pub fn switches_turn()
    ensures { SwitchesTurn }
{}
