//! The meaning of programs, as definitions.
//!
//! A program is what a module stands for once its names are numbers and its types are widths and sizes.
//! `specs/Values.antt` says what a value is, `specs/Memory.antt` what lies in memory, `specs/Integers.antt`,
//! `specs/Pointers.antt` and `specs/Operations.antt` what operations compute, `specs/Programs.antt` what a
//! program is, `specs/States.antt` and `specs/Steps.antt` what one instruction does, `specs/Runs.antt` what
//! a run is and when it ends.
#![tactic(auto)]

mod laws;

pub use laws::{
    an_ended_run_is_a_run, no_block_lives_again, programs_end_once, stores_leave_the_rest,
    what_is_stored_is_loaded,
};

/// Why a program has no meaning from some step on.
#[derive(Clone, Copy, Debug, PartialEq, Eq)]
pub enum Why {
    /// A division by zero, or of the least number by -1.
    Divide,
    /// Poison where a definite value is needed.
    Poison,
    /// An access to bytes that don't all lie in their block.
    OutOfBounds,
    /// An access to a block whose function has returned.
    Dead,
    /// A comparison of pointers that has no answer.
    Compare,
    /// An `unreachable` is reached.
    Unreachable,
}

/// What a load or a store moves.
#[derive(Clone, Copy, Debug, PartialEq, Eq)]
pub enum Access {
    /// An integer of 8 bits, in one byte.
    I8,
    /// An integer of 16 bits, in two bytes.
    I16,
    /// An integer of 32 bits, in four bytes.
    I32,
    /// An integer of 64 bits, in eight bytes.
    I64,
    /// A pointer, in eight bytes.
    Ptr,
}
