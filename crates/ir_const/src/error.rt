//! Why no type or constant was read.

ghost use Rattle.std.specs.Prelude.{◌≡◌, length};
ghost use Rattle.ir_const.specs.Places.{place_of, error_of};

use crate::reach::Reach;
use grammar::Stop;
use ir_lex::Token;
use thiserror::Error;

/// Why no type or constant was read.
#[derive(Clone, Copy, Debug, PartialEq, Eq, Error)]
pub enum ReadError {
    /// The tokens up to and with the bracket at this offset begin a type or a constant, and it is the
    /// first one that is the 65th open bracket.
    #[error("brackets nest too deep at {at}")]
    Deep {
        /// The offset of the bracket.
        at: usize,
    },
    /// The token at this offset is the first wrong one; where none is wrong, it is the length of the
    /// text.
    #[error("a wrong token at {at}")]
    Syntax {
        /// The offset of the token.
        at: usize,
    },
    /// There was no memory.
    #[error("out of memory")]
    OutOfMemory,
}

/// Returns the offset of the token of that number, or the length of the text after the last one.
pub fn place_of(text: &[u8], toks: &[Token], number: usize) -> usize
    ensures { result ≡ place_of text.now toks.now number }
{
    match toks.get(number) {
        Some(token) => token.start,
        None => text.len(),
    }
}

/// Returns the error where a reader stopped that was given the tokens so far.
pub fn error_of(text: &[u8], toks: &[Token], reach: Reach, stop: Stop) -> ReadError
    ensures { result ≡ error_of text.now toks.now reach.deep reach.end stop }
{
    match stop {
        Stop::OutOfMemory => ReadError::OutOfMemory,
        Stop::WrongSymbol(number) if reach.deep && reach.end == number => ReadError::Deep {
            at: place_of(text, toks, number.saturating_sub(1)),
        },
        Stop::WrongSymbol(number) => ReadError::Syntax {
            at: place_of(text, toks, number),
        },
    }
}
