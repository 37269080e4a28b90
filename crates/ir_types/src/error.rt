//! Why a module isn't proper.

use std::alloc::AllocError;
use thiserror::Error;

/// Why a module isn't proper.
#[derive(Clone, Copy, Debug, PartialEq, Eq, Error)]
pub enum TypeError {
    /// The item or the instruction at this offset is the first at which a rule of names fails.
    #[error("a wrong name at {at}")]
    Name {
        /// The offset of its first token.
        at: usize,
    },
    /// The item or the instruction at this offset is the first at which a rule of types fails.
    #[error("a wrong type at {at}")]
    Typing {
        /// The offset of its first token.
        at: usize,
    },
    /// There was no memory.
    #[error("out of memory")]
    OutOfMemory,
}

impl From<AllocError> for TypeError {
    ghost use Rattle.std.specs.Prelude.{◌≡◌};
    ghost use Rattle.ir_types.specs.declared.error.TypeError.TheVariants.{OutOfMemory};

    ghost from_gives = { λ _ error. error ≡ OutOfMemory };

    fn from(_error: AllocError) -> TypeError {
        TypeError::OutOfMemory
    }
}
