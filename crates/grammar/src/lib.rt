//! Grammars over symbols, readers of them, and the law that a reader gives exactly what its grammar
//! spells and else names the first wrong symbol.
//!
//! The definitions and laws stand in `specs/` and `proofs/`. The code is the error type that readers
//! share, and a sample reader that shows how the laws are used.
#![tactic(auto)]

pub mod sample;

use std::alloc::{AllocError, AllocFailed};
use thiserror::Error;

/// Why a reader stopped without a value.
#[derive(Debug, Drop, Error)]
pub enum Stop {
    /// The number of the first wrong symbol, which is the number of symbols where none is wrong.
    #[error("symbol {0} is wrong")]
    WrongSymbol(usize),
    /// Memory was wanting.
    #[error("out of memory")]
    OutOfMemory,
}

impl From<AllocError> for Stop {
    ghost use Rattle.std.specs.Prelude.{◌≡◌};
    ghost use Rattle.grammar.specs.declared.Stop.TheVariants.{OutOfMemory};

    ghost from_gives = { λ _ e. e ≡ OutOfMemory };

    fn from(_: AllocError) -> Self {
        Stop::OutOfMemory
    }
}

impl<T: Drop> From<AllocFailed<T>> for Stop {
    ghost use Rattle.std.specs.Prelude.{◌≡◌};
    ghost use Rattle.grammar.specs.declared.Stop.TheVariants.{OutOfMemory};

    ghost from_gives = { λ _ e. e ≡ OutOfMemory };

    fn from(_: AllocFailed<T>) -> Self {
        Stop::OutOfMemory
    }
}
