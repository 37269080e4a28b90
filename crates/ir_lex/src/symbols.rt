//! What a token means to a grammar: the number of an integer, the bytes of a string, the byte of a mark.

ghost use Rattle.std.specs.Prelude.{◌≡◌, ◌-◌, ◌^◌, ◌<◌, ◌≤◌, pos, neg_ℤ, IfOk};
ghost use Rattle.ir_lex.specs.Symbols.{symbol_of, number_below, integer_value, number_in, text_in, mark_in};

use crate::meaning::{spelling, text_spelling, unescaped};
use crate::token::{Kind, Token};
use ir_words::digits::{is_number, value};
use std::alloc::{AllocError, Global};

/// The number from which on an integer without a sign doesn't fit 128 bits with a sign.
const PAST_MOST: u128 = 1 << 127;

/// Returns the number of these digits, where they are digits and their number is below the limit.
fn number_below(limit: u128, digits: &[u8]) -> Option<u128>
    requires { limit < 2 ^ 128 - 1 }
    ensures { result ≡ number_below limit digits.now }
{
    if !is_number(digits) {
        return None;
    }
    let number = value(digits);
    if number < limit { Some(number) } else { None }
}

/// Returns a number of at most 2^127, negated.
fn negated(number: u128) -> i128
    requires { number ≤ 2 ^ 127 }
    ensures { result ≡ neg_ℤ (pos number) }
{
    if number == PAST_MOST {
        i128::MIN
    } else {
        -(number as i128)
    }
}

/// Returns the number that digits spell, with a minus sign or without one, where it fits 128 bits with a
/// sign.
fn integer_value(digits: &[u8]) -> Option<i128>
    ensures { result ≡ integer_value digits.now }
{
    match digits {
        [b'-', rest @ ..] => match number_below(PAST_MOST + 1, rest) {
            Some(number) => Some(negated(number)),
            None => None,
        },
        _ => match number_below(PAST_MOST, digits) {
            Some(number) => Some(number as i128),
            None => None,
        },
    }
}

/// Returns the number of an integer. Any other token has none.
pub fn number_of(text: &[u8], token: &Token) -> Option<i128>
    ensures { result ≡ number_in (symbol_of text.now token.now) }
{
    match token.kind {
        Kind::Int => integer_value(spelling(text, token)),
        _ => None,
    }
}

/// Returns the bytes of a string after `c`, with `\` forms read. Any other token has none.
#[tactic(auto, using(crate::proofs::SymbolParts::symbol_parts))]
pub fn text_of(alloc: Global, text: &[u8], token: &Token) -> Result<Vec<u8>, AllocError>
    ensures { IfOk result (λ bytes. bytes.items ≡ text_in (symbol_of text.now token.now)) }
{
    unescaped(alloc, text_spelling(text, token))
}

/// Returns the byte of a token of punctuation. Any other token has none.
pub fn mark_of(text: &[u8], token: &Token) -> Option<u8>
    ensures { result ≡ mark_in (symbol_of text.now token.now) }
{
    match token.kind {
        Kind::Punct => spelling(text, token).first().copied(),
        _ => None,
    }
}
