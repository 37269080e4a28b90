//! When a module is proper and within the limits, without the code that checks it.
//!
//! `specs/Edges.antt` says which block leads to which, `specs/Availability.antt` which values are there where
//! they are used, `specs/FlowRules.antt` when the flow of a function is proper, `specs/Limits.antt` what is
//! counted for each limit, `specs/Proper.antt` when a module is proper.
#![tactic(auto)]

/// A limit of a module.
#[derive(Clone, Copy, Debug, PartialEq, Eq)]
pub enum Which {
    /// How many functions are defined.
    Functions,
    /// How many parameters a defined function has.
    Params,
    /// How many values the instructions of a function give.
    Results,
    /// How many cases a switch has.
    Cases,
    /// How many bytes the frame of a function takes.
    Frame,
    /// How many bytes all globals take.
    Globals,
    /// The weight of the module, which bounds the words of its executable.
    Weight,
}
