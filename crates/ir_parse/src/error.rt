//! Why no module was read.

use thiserror::Error;

/// Why no module was read.
#[derive(Clone, Copy, Debug, PartialEq, Eq, Error)]
pub enum ParseError {
    /// The bracket at this offset is the first one that is the 65th open one.
    #[error("brackets nest too deep at {at}")]
    Deep {
        /// The offset of the bracket.
        at: usize,
    },
    /// The token at this offset is the first wrong one; where none is wrong, it is the length of the
    /// text.
    #[error("a wrong token at {at}")]
    Syntax {
        /// The offset of the token.
        at: usize,
    },
    /// There was no memory.
    #[error("out of memory")]
    OutOfMemory,
}
