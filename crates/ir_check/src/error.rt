//! Why a module is refused.

ghost use Rattle.std.specs.Prelude.{Err};
ghost use Rattle.ir_tree.specs.declared.parsed.Parsed.{Parsed};
ghost use Rattle.ir_types.specs.Answers.{IsChecked};
ghost use Rattle.ir_check.specs.Answers.{IsRefused};

use ir_proper::Which;
use ir_types::TypeError;
use std::alloc::AllocError;
use thiserror::Error;

/// Why a module is refused: the first kind of rule that fails, in this order.
#[derive(Clone, Copy, Debug, PartialEq, Eq, Error)]
pub enum CheckError {
    /// The item or the instruction at this offset is the first at which a rule of names fails.
    #[error("a wrong name at {at}")]
    Name {
        /// The offset of its first token.
        at: usize,
    },
    /// The item or the instruction at this offset is the first at which a rule of types fails.
    #[error("a wrong type at {at}")]
    Typing {
        /// The offset of its first token.
        at: usize,
    },
    /// The instruction at this offset is the first at which a rule of the flow fails.
    #[error("a wrong flow at {at}")]
    Flow {
        /// The offset of its first token.
        at: usize,
    },
    /// No function `main` without parameters that returns an `i32` is defined.
    #[error("no main function")]
    NoMain,
    /// A limit is passed: the first one of their table, by its first count that passes it.
    #[error("a limit is passed: {found}, where {most} is the most")]
    Limit {
        /// The limit.
        which: Which,
        /// The count that passes it.
        found: u64,
        /// The most that it allows.
        most: u64,
    },
    /// There was no memory.
    #[error("out of memory")]
    OutOfMemory,
}

impl From<AllocError> for CheckError {
    ghost use Rattle.std.specs.Prelude.{◌≡◌};
    ghost use Rattle.ir_check.specs.declared.error.CheckError.TheVariants.{OutOfMemory};

    ghost from_gives = { λ _ error. error ≡ OutOfMemory };

    fn from(_error: AllocError) -> CheckError {
        CheckError::OutOfMemory
    }
}

/// Returns the refusal of a module whose names or types aren't proper.
pub fn refusal_of_types(error: TypeError) -> CheckError
    ensures { (p : Parsed) → IsChecked p (Err error) → IsRefused p result }
{
    match error {
        TypeError::Name { at } => CheckError::Name { at },
        TypeError::Typing { at } => CheckError::Typing { at },
        TypeError::OutOfMemory => CheckError::OutOfMemory,
    }
}
