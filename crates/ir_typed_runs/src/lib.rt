//! What holds in every state of every run of a typed program, as an invariant.
//!
//! `specs/Invariants.antt` says what an invariant is, `specs/Kinds.antt` what kinds values are of,
//! `specs/TypedPrograms.antt` which programs are typed, `specs/TypedStates.antt` which states are.
#![tactic(auto)]

mod laws;

pub use laws::{
    inputs_of_phis_fit, loads_keep_kinds, operands_fit, operations_keep_kinds,
    reached_states_are_typed, typed_states_stay,
};
