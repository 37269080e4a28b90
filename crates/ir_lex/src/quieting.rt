//! Quieting: the tokens that are kept.

ghost use Rattle.std.specs.Prelude.{◌≡◌, length, None, IfOk, OnOk, IfErr};
ghost use Rattle.ir_lex.specs.Quiet.{without, kept_of, first_outside, RefusesKept};

use crate::error::LexError;
use crate::meaning::{spelling, word_of};
use crate::phrases::{Rule, phrase};
use crate::token::Token;
use ir_words::is_outside_word;
use std::alloc::{AllocError, Global};

/// Returns what a rule leaves of a token list.
fn without(alloc: Global, text: &[u8], rule: Rule, toks: &[Token]) -> Result<Vec<Token>, AllocError>
    ensures { IfOk result (λ kept. kept.items ≡ without text.now rule toks.now) }
{
    let mut kept = Vec::new(alloc);
    let mut at = 0;
    while at < toks.len() {
        match phrase(text, rule, &toks[at..]) {
            Some(count) => at += count,
            None => {
                kept.push(toks[at])?;
                at += 1;
            }
        }
    }
    Ok(kept)
}

/// Returns what the seven rules leave of a token list.
fn kept(alloc: Global, text: &[u8], toks: &[Token]) -> Result<Vec<Token>, AllocError>
    ensures { IfOk result (λ kept. kept.items ≡ kept_of text.now toks.now) }
{
    let mut kept = without(alloc, text, Rule::HeaderLines, toks)?;
    kept = without(alloc, text, Rule::NoteLines, &kept)?;
    kept = without(alloc, text, Rule::MetaPairs, &kept)?;
    kept = without(alloc, text, Rule::Alignments, &kept)?;
    kept = without(alloc, text, Rule::Hashes, &kept)?;
    kept = without(alloc, text, Rule::Groups, &kept)?;
    without(alloc, text, Rule::QuietWords, &kept)
}

/// Returns the place and the length of the first word that is outside the language.
fn first_outside(text: &[u8], toks: &[Token]) -> Option<(usize, usize)>
    ensures { result ≡ first_outside text.now toks.now }
{
    for token in toks {
        if is_outside_word(word_of(text, token)) {
            return Some((token.start, spelling(text, token).len()));
        }
    }
    None
}

/// Returns the tokens that are kept once attributes, metadata and what else changes no meaning are
/// dropped.
///
/// The rules are those of `Rule`, each applied to what the one before it leaves. `Outside` names the first
/// kept word that is outside the language; `Bad` is never answered. The time is linear in the tokens.
pub fn quiet(alloc: Global, text: &[u8], toks: &[Token]) -> Result<Vec<Token>, LexError>
    ensures kept { IfOk result (λ kept. kept.items ≡ kept_of text.now toks.now) }
    ensures inside { OnOk result (first_outside text.now (kept_of text.now toks.now) ≡ None) }
    ensures refused { IfErr result (RefusesKept text.now (kept_of text.now toks.now)) }
{
    let Ok(kept) = kept(alloc, text, toks) else {
        return Err(LexError::OutOfMemory);
    };
    match first_outside(text, &kept) {
        Some((at, len)) => Err(LexError::Outside { at, len }),
        None => Ok(kept),
    }
}
