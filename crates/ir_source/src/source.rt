//! The way from bytes to a module: tokens, those of them that are kept, and what they spell.

ghost use Rattle.std.specs.Prelude.{◌≡◌, ◌^◌, ◌<◌, ◌≤◌, length, true, IfOk, IfErr};
ghost use Rattle.ir_tree.specs.Known.{module_known};
ghost use Rattle.ir_source.specs.Texts.{AreKept, IsRead, HasSpots};
ghost use Rattle.ir_source.specs.Errors.{KeepsNone, of_lex, of_parse};

use crate::error::SourceError;
use ir_lex::{LexError, Token};
use ir_parse::ParseError;
use ir_tree::parsed::Parsed;
use std::alloc::Global;

/// Returns the tokens of a text that are kept.
fn kept_tokens(alloc: Global, text: &[u8]) -> Result<Vec<Token>, LexError>
    ensures kept { IfOk result (λ kept. AreKept text.now kept.items) }
    ensures few { IfOk result (λ kept. length kept.items ≤ length text.now) }
    ensures none { IfErr result (KeepsNone text.now) }
{
    match ir_lex::tokens(alloc, text) {
        Err(error) => Err(error),
        Ok(toks) => ir_lex::quiet(alloc, text, &toks),
    }
}

/// Returns the error of a text whose tokens are refused.
fn of_lex(error: LexError) -> SourceError
    ensures { result ≡ of_lex error }
{
    match error {
        LexError::Bad { at } => SourceError::Bad { at },
        LexError::Outside { at, len } => SourceError::Outside { at, len },
        LexError::OutOfMemory => SourceError::OutOfMemory,
    }
}

/// Returns the error of a text whose kept tokens are refused.
fn of_parse(error: ParseError) -> SourceError
    ensures { result ≡ of_parse error }
{
    match error {
        ParseError::Deep { at } => SourceError::Deep { at },
        ParseError::Syntax { at } => SourceError::Syntax { at },
        ParseError::OutOfMemory => SourceError::OutOfMemory,
    }
}

/// Reads the module of a text, with the offsets of its items and instructions.
///
/// The time is linear in the text.
///
/// # Errors
///
/// The first of these that holds, and each exactly where it holds: `Bad` where a byte begins no token;
/// `Outside` where a word that is kept is outside the language; `Deep` where a bracket is the 65th open
/// one; `Syntax` where the tokens that are kept spell no module. `OutOfMemory` may take the place of any
/// answer.
pub fn read_source(alloc: Global, text: &[u8]) -> Result<Parsed, SourceError>
    requires short { length text.now < 2 ^ 31 }
    ensures reads { IsRead text.now result }
    ensures spots { IfOk result (HasSpots text.now) }
    ensures known { IfOk result (λ p. module_known p.«module» ≡ true) }
{
    match kept_tokens(alloc, text) {
        Err(error) => Err(of_lex(error)),
        Ok(kept) => match ir_parse::parse(alloc, text, &kept) {
            Err(error) => Err(of_parse(error)),
            Ok(parsed) => Ok(parsed),
        },
    }
}
