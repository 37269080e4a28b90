//! One vote on the stack pointer that serves several accesses to slots of the frame, under one flip: sequences after a
//! vote, and operations in three versions by one vote each. Definitions and laws; there is no code here.
#![tactic(auto)]

ghost use Rattle.flip_votes.specs.Votes.{VotedRunsJoin, VotedSlotsAreLoaded, VotedSlotsAreStored};
ghost use Rattle.flip_votes.specs.Votes.{VotedComputingRuns, VotesServe};
ghost use Rattle.flip_votes.specs.Accesses.{VersionsAreVoted};
ghost use Rattle.flip_votes.specs.Versions.{TwoAreVoted, OneIsVoted};
ghost use Rattle.flip_votes.specs.Versions.{AdditionsAreVoted, AdditionsAreShort};

/// States that two sequences after a vote, one after the other, are one.
pub fn voted_runs_join()
    ensures { VotedRunsJoin }
{}

/// States that a load and a store of a slot of the frame need no vote of their own while one stands.
pub fn voted_slots_are_reached()
    ensures loaded { VotedSlotsAreLoaded }
    ensures stored { VotedSlotsAreStored }
{}

/// States that any list of words that compute leaves the vote as it is.
pub fn voted_computing_runs()
    ensures { VotedComputingRuns }
{}

/// States that a vote serves all words after it up to an access, where they are at most 31 and leave x2 as it is.
pub fn votes_serve()
    ensures { VotesServe }
{}

/// States that loads, words that compute and stores by one vote are a sequence of one version.
pub fn versions_are_voted()
    ensures { VersionsAreVoted }
{}

/// States that three versions of two operands make three versions of a result by three votes, for any code that
/// computes.
pub fn two_are_voted()
    ensures { TwoAreVoted }
{}

/// States the same of one operand.
pub fn one_is_voted()
    ensures { OneIsVoted }
{}

/// States that an addition of 32 bits of values in slots is such an operation, and that it takes 18 words where all
/// slots are near.
pub fn additions_are_voted()
    ensures right { AdditionsAreVoted }
    ensures short { AdditionsAreShort }
{}
