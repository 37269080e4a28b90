//! What a token means.

ghost use Rattle.std.specs.Prelude.{◌≡◌, ◌≤◌, ◌<◌, length, true, drop, IfOk};
ghost use Rattle.ir_lex.specs.Meaning.{spelling, is_hex, hex_value, escape, unescaped, unquoted, name_spelling, text_spelling, name_of, word_of};
ghost use Rattle.ir_lex.specs.Symbols.{symbol_of, keyword_in, name_in};
ghost use Rattle.ir_lex.specs.Names.{begins_as};

use crate::lengths::begins_with;
use crate::token::{Kind, Token};
use ir_words::{Keyword, keyword_of};
use std::alloc::{AllocError, Global};

/// Returns the bytes of a token, as they stand in the text.
pub fn spelling<'a>(text: &'a [u8], token: &Token) -> &'a [u8]
    ensures { result.now ≡ spelling text.now token.now }
{
    let rest = &text[token.start.min(text.len())..];
    &rest[..token.end.saturating_sub(token.start).min(rest.len())]
}

/// Returns what the word of a token stands for; `Other` for a token that isn't a word.
pub fn word_of(text: &[u8], token: &Token) -> Keyword
    ensures value { result ≡ word_of text.now token.now }
    ensures symbol { result ≡ keyword_in (symbol_of text.now token.now) }
{
    match token.kind {
        Kind::Word => keyword_of(spelling(text, token)),
        _ => Keyword::Other,
    }
}

/// Tells whether the byte is a hexadecimal digit.
fn is_hex(b: u8) -> bool
    ensures { result ≡ is_hex b }
{
    (b > 47 && b < 58) || (b > 64 && b < 71) || (b > 96 && b < 103)
}

/// Returns the number of a hexadecimal digit.
fn hex_value(b: u8) -> u8
    requires { is_hex b ≡ true }
    ensures value { result ≡ hex_value b }
    ensures low { result < 16 }
{
    if b < 58 {
        b - 48
    } else if b < 71 {
        b - 55
    } else {
        b - 87
    }
}

/// Returns the byte that a text begins with, and how many bytes spell it.
///
/// `\\` is a backslash, `\` and two hexadecimal digits are that byte, and any other byte is itself.
#[tactic(auto, unfolding(crate::specs::Meaning::escape))]
fn escape(text: &[u8]) -> (u8, usize)
    requires { 0 < length text.now }
    ensures value { result ≡ escape text.now }
    ensures some { 0 < result.1 }
    ensures within { result.1 ≤ length text.now }
{
    match text {
        [b'\\', b'\\', ..] => (b'\\', 2),
        [b'\\', high, low, ..] if is_hex(*high) && is_hex(*low) => {
            (16 * hex_value(*high) + hex_value(*low), 3)
        }
        [first, ..] => (*first, 1),
        [] => unreachable!(),
    }
}

/// Returns a name without its quotes.
fn unquoted(name: &[u8]) -> &[u8]
    ensures { result.now ≡ unquoted name.now }
{
    match name {
        [b'"', rest @ ..] => &rest[..rest.len().saturating_sub(1)],
        _ => name,
    }
}

/// Returns what follows the first byte.
fn without_first(bytes: &[u8]) -> &[u8]
    ensures { result.now ≡ drop 1 bytes.now }
{
    match bytes {
        [_, rest @ ..] => rest,
        [] => bytes,
    }
}

/// Returns the bytes that spell the name of a local, a global or a label, without `%`, `@`, `:` and
/// quotes.
pub fn name_spelling<'a>(text: &'a [u8], token: &Token) -> &'a [u8]
    ensures { result.now ≡ name_spelling text.now token.now }
{
    let bytes = spelling(text, token);
    match token.kind {
        Kind::Local | Kind::Global => unquoted(without_first(bytes)),
        Kind::Label => unquoted(&bytes[..bytes.len().saturating_sub(1)]),
        _ => &[],
    }
}

/// Returns the bytes that spell those of a string after `c`, without `c` and quotes.
pub fn text_spelling<'a>(text: &'a [u8], token: &Token) -> &'a [u8]
    ensures { result.now ≡ text_spelling text.now token.now }
{
    match token.kind {
        Kind::CStr => unquoted(without_first(spelling(text, token))),
        _ => &[],
    }
}

/// Returns the bytes that a text spells.
pub fn unescaped(alloc: Global, body: &[u8]) -> Result<Vec<u8>, AllocError>
    ensures { IfOk result (λ bytes. bytes.items ≡ unescaped body.now) }
{
    let mut bytes = Vec::new(alloc);
    let mut at = 0;
    while at < body.len() {
        let (byte, count) = escape(&body[at..]);
        bytes.push(byte)?;
        at += count;
    }
    Ok(bytes)
}

/// Returns the name of a local, a global or a label: its bytes without `%`, `@`, `:` and quotes, with
/// `\` forms read. Any other token has the empty name.
#[tactic(auto, using(crate::proofs::SymbolParts::symbol_parts))]
pub fn name_of(alloc: Global, text: &[u8], token: &Token) -> Result<Vec<u8>, AllocError>
    ensures value { IfOk result (λ name. name.items ≡ name_of text.now token.now) }
    ensures symbol { IfOk result (λ name. name.items ≡ name_in (symbol_of text.now token.now)) }
{
    unescaped(alloc, name_spelling(text, token))
}

/// Tells whether a name that is spelled so begins with these bytes, and is no longer where it is to be
/// whole.
pub fn begins_as(whole: bool, body: &[u8], start: &[u8]) -> bool
    ensures { result ≡ begins_as whole (unescaped body.now) start.now }
{
    let mut at = 0;
    for b in start {
        if at >= body.len() {
            return false;
        }
        let (byte, count) = escape(&body[at..]);
        if byte != *b {
            return false;
        }
        at += count;
    }
    if whole { at == body.len() } else { true }
}
