//! Words and tokens.

use anyhow::{Result, bail};
use ir_lex::{
    LexError, Token, keyword_of, mark_of, name_of, number_of, quiet, text_of, tokens, word_of,
};
use std::alloc::Global;
use std::str::from_utf8;

/// Returns the bytes of a text from an offset up to another, as far as there are some.
pub fn part(text: &[u8], start: usize, end: usize) -> &[u8] {
    let front = &text[..end.min(text.len())];
    &front[start.min(front.len())..]
}

/// Says why a text has no tokens, or tokens that aren't taken.
pub fn lex_refusal(alloc: Global, error: LexError) -> Result<String> {
    match error {
        LexError::Bad { at } => Ok(format!(in alloc; "bad {at}")?),
        LexError::Outside { at, len } => Ok(format!(in alloc; "outside {at} of {len}")?),
        LexError::OutOfMemory => bail!("{error}"),
    }
}

/// Returns the kept tokens of a text.
pub fn kept(alloc: Global, text: &[u8]) -> Result<Vec<Token>, LexError> {
    let toks = tokens(alloc, text)?;
    quiet(alloc, text, &toks)
}

/// Tells what a word stands for.
pub fn word(alloc: Global, text: &str) -> Result<String> {
    let keyword = keyword_of(text.as_bytes());
    Ok(format!(in alloc; "{keyword:?}")?)
}

/// Shows each token by its kind and its two offsets, and `^` where it is the first on its line.
pub fn tokens_of(alloc: Global, text: &str) -> Result<String> {
    let toks = match tokens(alloc, text.as_bytes()) {
        Ok(toks) => toks,
        Err(error) => return lex_refusal(alloc, error),
    };
    let mut shown = String::new(alloc);
    for Token {
        kind,
        start,
        end,
        first,
    } in toks.iter().copied() {
        let mark = if first { "^" } else { "" };
        write!(shown, "{kind:?} {start} {end}{mark};")?;
    }
    Ok(shown)
}

/// Shows the spellings of the tokens that are kept, with a blank between two.
pub fn kept_of(alloc: Global, text: &str) -> Result<String> {
    let toks = match kept(alloc, text.as_bytes()) {
        Ok(toks) => toks,
        Err(error) => return lex_refusal(alloc, error),
    };
    let mut shown = String::new(alloc);
    for token in &toks {
        let spelling = from_utf8(part(text.as_bytes(), token.start, token.end))?;
        let gap = if shown.is_empty() { "" } else { " " };
        write!(shown, "{gap}{spelling}")?;
    }
    Ok(shown)
}

/// Shows what each token means: its name, its number, its bytes, its mark and its word.
pub fn meanings(alloc: Global, text: &str) -> Result<String> {
    let toks = match tokens(alloc, text.as_bytes()) {
        Ok(toks) => toks,
        Err(error) => return lex_refusal(alloc, error),
    };
    let mut shown = String::new(alloc);
    for token in &toks {
        let name = name_of(alloc, text.as_bytes(), token)?;
        let name = from_utf8(&name)?;
        let number = number_of(text.as_bytes(), token);
        let bytes = text_of(alloc, text.as_bytes(), token)?;
        let bytes = from_utf8(&bytes)?;
        let mark = mark_of(text.as_bytes(), token);
        let word = word_of(text.as_bytes(), token);
        write!(shown, "{name:?} {number:?} {bytes:?} {mark:?} {word:?};")?;
    }
    Ok(shown)
}
