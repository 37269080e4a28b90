//! Branches, switches and edges between blocks, as words that do their steps. Definitions and laws; there is no code
//! here.
#![tactic(auto)]

ghost use Rattle.done_flow.specs.Edges.{EdgesAreDone};
ghost use Rattle.done_flow.specs.Turns.{JumpsAreDone, BranchesAreDone, SwitchesAreDone};

/// Proves that the words of an edge enter its block: each phi has the value that it takes from there.
pub fn edges_are_done()
    ensures { EdgesAreDone }
{}

/// Proves that a jump goes to the words of the edge to its block.
pub fn jumps_are_done()
    ensures { JumpsAreDone }
{}

/// Proves that a branch goes to the words of the edge to the block that its condition chooses.
pub fn branches_are_done()
    ensures { BranchesAreDone }
{}

/// Proves that a switch goes to the words of the edge to the block of its value's case.
pub fn switches_are_done()
    ensures { SwitchesAreDone }
{}
