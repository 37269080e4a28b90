//! Copies of values of which three versions are kept, one after another, and the edges between blocks that are
//! made of them, under one flip. Definitions and laws; there is no code here.
#![tactic(auto)]

ghost use Rattle.flip_copies.specs.Copies.{CopyListsRun, GoalsAreSet, CopiesLeaveTheRest, OtherValuesStay};
ghost use Rattle.flip_copies.specs.Edges.{EdgesRun, PhisAreSet, EdgesLeaveTheRest};
ghost use Rattle.flip_copies.specs.Narrowing.{StagesAreNarrowed, NarrowedStagesHold};

/// States that copies run one after another as if all were made at once, where none overwrites what a later
/// one reads: each goal then holds its value, and what no copy writes stays.
pub fn copy_lists_run()
    ensures runs { CopyListsRun }
    ensures goals { GoalsAreSet }
    ensures rest { CopiesLeaveTheRest }
    ensures values { OtherValuesStay }
{}

/// States that an edge sets all phis of the block that it enters from their inputs, which are read before any
/// phi is set, and leaves all but the phis and their cells.
pub fn edges_run()
    ensures runs { EdgesRun }
    ensures phis { PhisAreSet }
    ensures rest { EdgesLeaveTheRest }
{}

/// States that what is known at a place may be narrowed to the values that are held in slots, as where several
/// ways meet, and that they are held still.
pub fn stages_are_narrowed()
    ensures less { StagesAreNarrowed }
    ensures held { NarrowedStagesHold }
{}
