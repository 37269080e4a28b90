//! The program that a module stands for, as a definition.
//!
//! `specs/Sizes.antt` says how large types are, `specs/Strides.antt` where indices lead,
//! `specs/Constants.antt` which values and bytes constants are, `specs/Operands.antt` what operands and
//! instructions are once names are numbers, `specs/ProgramOf.antt` what the whole is.
#![tactic(auto)]

mod laws;

pub use laws::{
    constants_fill_their_types, frames_are_those_of_limits, sizes_are_those_of_layouts,
};
