//! What the machine keeps of the states of a compiled program.
//!
//! `specs/Layouts.antt` says where values stand in the frames of a stack, `specs/Kept.antt` what it is for a stage of the
//! machine to keep a state of the program, `specs/Laws.antt` what follows. There is no code: contracts are the laws.
#![tactic(auto)]

ghost use Rattle.kept_states.specs.Laws.{FramesHaveRoom, ValuesAreHeld, ResultsAreKept, OtherSlotsAreFree};
ghost use Rattle.kept_states.specs.Laws.{EntriesAreKept, CallersAreKept, BlocksAreKept};

/// Proves that the frame of the innermost activation lies in the data, where a state is within the stack.
pub fn frames_have_room()
    ensures { FramesHaveRoom }
{}

/// Proves that the slots of a value hold its three versions.
pub fn values_are_held()
    ensures { ValuesAreHeld }
{}

/// Proves that a value that is defined is kept, and that all other values are kept still.
pub fn results_are_kept()
    ensures { ResultsAreKept }
{}

/// Proves that slots that no value and no return address has may hold anything.
pub fn other_slots_are_free()
    ensures { OtherSlotsAreFree }
{}

/// Proves that a function is kept as it is entered, with its arguments, in a frame right below the others.
pub fn entries_are_kept()
    ensures { EntriesAreKept }
{}

/// Proves that a frame has the address to which its function returns, and that the caller is kept above it.
pub fn callers_are_kept()
    ensures { CallersAreKept }
{}

/// Proves that an activation is kept in the block that it enters, with its phis.
pub fn blocks_are_kept()
    ensures { BlocksAreKept }
{}
