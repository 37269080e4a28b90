//! Why a text has no module.

use thiserror::Error;

/// Why a text has no module: the first reason that holds, in this order.
#[derive(Clone, Copy, Debug, PartialEq, Eq, Error)]
pub enum SourceError {
    /// At this offset no token, blank or comment begins.
    #[error("no token begins at {at}")]
    Bad {
        /// The offset of the byte.
        at: usize,
    },
    /// The word at this offset is the first one that is outside the language.
    #[error("the word of {len} bytes at {at} is outside the language")]
    Outside {
        /// The offset of the word.
        at: usize,
        /// How many bytes it has.
        len: usize,
    },
    /// The bracket at this offset is the first one that is the 65th open one.
    #[error("brackets nest too deep at {at}")]
    Deep {
        /// The offset of the bracket.
        at: usize,
    },
    /// The token at this offset is the first wrong one; where none is wrong, it is the length of the
    /// text.
    #[error("a wrong token at {at}")]
    Syntax {
        /// The offset of the token.
        at: usize,
    },
    /// Memory ran out. It says nothing of the text.
    #[error("out of memory")]
    OutOfMemory,
}
