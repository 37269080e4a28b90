//! The tokens of a text, one after another.

ghost use Rattle.std.specs.Prelude.{◌≡◌, ◌≤◌, length, IfSome, IfOk, IfErr};
ghost use Rattle.ir_lex.specs.Lengths.{first_token, NoLabels};
ghost use Rattle.ir_lex.specs.Tokens.{AreTokens, RefusesTokens};

use crate::error::LexError;
use crate::lengths::{
    begins_with, c_string, float, gap, global, hash, label, local, meta, punct, string,
    unlabelled_count, word,
};
use crate::numbers::integer;
use crate::token::{Kind, Token};
use std::alloc::Global;

/// Returns the tokens of a text, in order.
///
/// The text is blanks, comments and tokens. Each token is taken by the first rule that fits, in the order
/// of `Kind`, and is as long as its rule allows. `Bad` names the place where no token, blank or comment
/// begins, after tokens, blanks and comments; a text has at most one such place, and then no token list.
/// The time is linear in the length of the text.
pub fn tokens(alloc: Global, text: &[u8]) -> Result<Vec<Token>, LexError>
    ensures tokens { IfOk result (λ toks. AreTokens text.now toks.items) }
    ensures refused { IfErr result (RefusesTokens text.now) }
{
    let mut toks = Vec::new(alloc);
    let mut at = 0;
    let mut first = true;
    let mut unlabelled = 0;
    while at < text.len() {
        let rest = &text[at..];
        if let Some(len) = gap(rest) {
            first = first || begins_with(rest, b'\n');
            at += len;
            unlabelled = 0;
        } else {
            let known = unlabelled_count(rest, unlabelled);
            let Some((kind, len)) = first_token(rest, known) else {
                return Err(LexError::Bad { at });
            };
            let token = Token {
                kind,
                start: at,
                end: at + len,
                first,
            };
            if toks.push(token).is_err() {
                return Err(LexError::OutOfMemory);
            }
            first = false;
            at += len;
            unlabelled = known.saturating_sub(len);
        }
    }
    Ok(toks)
}

/// Returns the kind and the length of the token that the text begins with, by the first rule that fits,
/// where no label begins at the first `unlabelled` bytes.
#[tactic(auto, unfolding(crate::specs::Lengths::length_of))]
fn first_token(text: &[u8], unlabelled: usize) -> Option<(Kind, usize)>
    requires { NoLabels unlabelled text.now }
    ensures value { result ≡ first_token text.now }
    ensures within { IfSome result (λ t. t.1 ≤ length text.now) }
{
    if let Some(len) = local(text) {
        return Some((Kind::Local, len));
    }
    if let Some(len) = global(text) {
        return Some((Kind::Global, len));
    }
    if let Some(len) = c_string(text) {
        return Some((Kind::CStr, len));
    }
    if let Some(len) = label(text, unlabelled) {
        return Some((Kind::Label, len));
    }
    if let Some(len) = string(text) {
        return Some((Kind::Str, len));
    }
    if let Some(len) = float(text) {
        return Some((Kind::Float, len));
    }
    if let Some(len) = integer(text) {
        return Some((Kind::Int, len));
    }
    if let Some(len) = word(text) {
        return Some((Kind::Word, len));
    }
    if let Some(len) = meta(text) {
        return Some((Kind::Meta, len));
    }
    if let Some(len) = hash(text) {
        return Some((Kind::Hash, len));
    }
    if let Some(len) = punct(text) {
        return Some((Kind::Punct, len));
    }
    None
}
