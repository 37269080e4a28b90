//! Words that go on elsewhere than at the next word, and sequences from place to place of a text, under one
//! flip. Definitions and laws; there is no code here.
#![tactic(auto)]

ghost use Rattle.flip_jumps.specs.Jumps.{JumpsLink, JumpsGo, RegisterJumpsGo, BranchesGo};
ghost use Rattle.flip_jumps.specs.Places.{PlacesJoin, SequencesGo, PlacesJump, PlacesEnd, StagesAreForgotten};

/// States that JAL goes to its target, and that its register then has the address of the next word for sure.
pub fn jumps_link()
    ensures { JumpsLink }
{}

/// States that JAL with x0 goes to its target, and leaves all else.
pub fn jumps_go()
    ensures { JumpsGo }
{}

/// States that JALR goes to the address in a register that is right for sure.
pub fn register_jumps_go()
    ensures { RegisterJumpsGo }
{}

/// States that a branch on two registers that are right for sure goes to its target or to the next word, as it
/// compares.
pub fn branches_go()
    ensures { BranchesGo }
{}

/// States that runs that go from place to place are joined; that sequences and jumps go so; and that a run that
/// goes to a place from where it ends, ends.
pub fn places_join()
    ensures join { PlacesJoin }
    ensures sequences { SequencesGo }
    ensures jumps { PlacesJump }
    ensures ends { PlacesEnd }
{}

/// States that what is known of a stage may be forgotten at any place.
pub fn stages_are_forgotten()
    ensures { StagesAreForgotten }
{}
