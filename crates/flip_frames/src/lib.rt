//! Sequences of words on a frame under one flip: the vote on the stack pointer, slots that are loaded and
//! stored, and words that compute, on one version of values. Definitions and laws; there is no code here.
#![tactic(auto)]

ghost use Rattle.flip_frames.specs.Views.{RunsJoin, VersionsTurn};
ghost use Rattle.flip_frames.specs.Computing.{ComputingRuns};
ghost use Rattle.flip_frames.specs.Slots.{VotesHold, NearSlotsAreLoaded, NearSlotsAreStored};
ghost use Rattle.flip_frames.specs.Fetching.{TriplesAreFetched, SlotTriplesAreFetched, FetchedAreCovered};
ghost use Rattle.flip_frames.specs.Slots.{FarSlotsAreLoaded, FarSlotsAreStored};
ghost use Rattle.flip_frames.specs.Slots.{AnySlotsAreLoaded, AnySlotsAreStored};

/// States that two sequences, one after the other, are one.
pub fn runs_join()
    ensures { RunsJoin }
{}

/// States that any list of words that compute in scratch registers gives, of versions with one tag, versions
/// with that tag.
pub fn computing_runs()
    ensures { ComputingRuns }
{}

/// States that the vote makes the first copy of the stack pointer right.
pub fn votes_hold()
    ensures { VotesHold }
{}

/// States that a vote and a load bring a version from a slot of the frame.
pub fn near_slots_are_loaded()
    ensures { NearSlotsAreLoaded }
{}

/// States that a vote and a store keep a version in a slot of the frame, and leave all else in memory.
pub fn near_slots_are_stored()
    ensures { NearSlotsAreStored }
{}

/// States that a slot at any offset is loaded by an address that is formed twice and compared, else formed
/// from the third copy of the stack pointer.
pub fn far_slots_are_loaded()
    ensures { FarSlotsAreLoaded }
{}

/// States that a version is kept in a slot at any offset.
pub fn far_slots_are_stored()
    ensures { FarSlotsAreStored }
{}

/// States that a version comes from any slot, near or far, by the words for its offset.
pub fn any_slots_are_loaded()
    ensures { AnySlotsAreLoaded }
{}

/// States that a version goes to any slot, near or far, by the words for its offset.
pub fn any_slots_are_stored()
    ensures { AnySlotsAreStored }
{}

/// States that three words bring the right one of three copies in registers into a fourth register.
pub fn triples_are_fetched()
    ensures { TriplesAreFetched }
{}

/// States that seven words bring the right one of three copies in slots into x5; and that a flip of x5 before
/// a use by the next word falls at a window point.
pub fn slot_triples_are_fetched()
    ensures fetched { SlotTriplesAreFetched }
    ensures covered { FetchedAreCovered }
{}

/// States that the next version may have its turn at any place.
pub fn versions_turn()
    ensures { VersionsTurn }
{}
