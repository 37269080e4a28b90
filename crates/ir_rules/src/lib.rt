//! The rules of names and types of a module, without the code that checks them.
//!
//! `specs/Values.antt` says what the values of a function are, `specs/Uses.antt` which names each part of a
//! module uses, `specs/Things.antt` what a name stands for, `specs/NameRules.antt` and `specs/TypeRules.antt`
//! when names and types are proper, `specs/Faults.antt` where a rule fails.
#![tactic(auto)]

/// What gives a value of a function: a parameter, or an instruction, by number.
#[derive(Clone, Copy, Debug, PartialEq, Eq)]
pub enum Site {
    /// The parameter of this number.
    Param(usize),
    /// The instruction of the second number in the block of the first.
    Inst(usize, usize),
}

/// A function that may be called, by number.
#[derive(Clone, Copy, Debug, PartialEq, Eq)]
pub enum Callee {
    /// The defined function of this number.
    Defined(usize),
    /// The declared function of this number.
    Declared(usize),
}
