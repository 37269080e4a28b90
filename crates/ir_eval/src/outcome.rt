//! What steps and runs come to.

use ir_model::Why;

/// What a step comes to.
#[derive(Clone, Copy, Debug, PartialEq, Eq)]
pub enum Turn {
    /// There is a next state.
    Goes,
    /// The program has ended with this status.
    Ends(u8),
    /// The program has no meaning.
    Undefined(Why),
}

/// What a run comes to.
#[derive(Debug, Drop)]
pub enum Outcome {
    /// The program has ended.
    Ended {
        /// What it has put out.
        output: Vec<u8>,
        /// Its status.
        status: u8,
        /// How many steps it took, the last one among them.
        steps: u64,
    },
    /// The program has no meaning.
    Undefined {
        /// Why.
        why: Why,
        /// What it had put out before.
        output: Vec<u8>,
    },
    /// The program goes on after as many steps as were allowed.
    StepsOver {
        /// What it has put out.
        output: Vec<u8>,
    },
}
