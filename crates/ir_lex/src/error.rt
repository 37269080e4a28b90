//! Why a text has no tokens.

use thiserror::Error;

/// Why a text of LLVM IR has no tokens, or tokens that aren't taken.
#[derive(Clone, Copy, Debug, PartialEq, Eq, Error)]
pub enum LexError {
    /// At this offset no token, blank or comment begins.
    #[error("no token begins at {at}")]
    Bad {
        /// The offset of the byte.
        at: usize,
    },
    /// The word at this offset is outside the language.
    #[error("the word of {len} bytes at {at} is outside the language")]
    Outside {
        /// The offset of the word.
        at: usize,
        /// How many bytes it has.
        len: usize,
    },
    /// There was no memory.
    #[error("out of memory")]
    OutOfMemory,
}
