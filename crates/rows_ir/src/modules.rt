//! Modules.

ghost use Rattle.std.specs.Prelude.{◌≡◌, true, IfOk};
ghost use Rattle.ir_tree.specs.Known.{module_known};

use crate::lexical::{kept, lex_refusal, part};
use anyhow::{Result, bail};
use ir_parse::{ParseError, parse};
use ir_print::print;
use ir_tree::parsed::Parsed;
use std::alloc::Global;
use std::str::from_utf8;

/// Reads the module of a text, or says why there is none.
pub fn read(alloc: Global, text: &str) -> Result<Result<Parsed, String>>
    ensures { IfOk result (λ read. IfOk read (λ p. module_known p.«module» ≡ true)) }
{
    let toks = match kept(alloc, text.as_bytes()) {
        Ok(toks) => toks,
        Err(error) => return Ok(Err(lex_refusal(alloc, error)?)),
    };
    if toks.len() >= 1 << 31 {
        bail!("too many tokens");
    }
    match parse(alloc, text.as_bytes(), &toks) {
        Ok(parsed) => Ok(Ok(parsed)),
        Err(ParseError::Deep { at }) => Ok(Err(format!(in alloc; "deep {at}")?)),
        Err(ParseError::Syntax { at }) => Ok(Err(format!(in alloc; "syntax {at}")?)),
        Err(ParseError::OutOfMemory) => bail!("out of memory"),
    }
}

/// Returns the printed form of a module.
fn printed(alloc: Global, parsed: &Parsed) -> Result<String> {
    let text = print(alloc, &parsed.module)?;
    Ok(String::from_str(alloc, from_utf8(&text)?)?)
}

/// Shows the module of a text by its printed form, or says why there is none.
pub fn module(alloc: Global, text: &str) -> Result<String> {
    match read(alloc, text)? {
        Ok(parsed) => printed(alloc, &parsed),
        Err(why) => Ok(why),
    }
}

/// Shows the module of a text by its printed form and the offsets of its parts, or says why there
/// is none.
pub fn module_and_spots(alloc: Global, text: &str) -> Result<String> {
    match read(alloc, text)? {
        Ok(parsed) => {
            let module = printed(alloc, &parsed)?;
            let spots = &parsed.spots;
            Ok(format!(in alloc; "{module}{spots:?}")?)
        }
        Err(why) => Ok(why),
    }
}

/// Shows the blocks of a function that has these lines, or says why there is none; the text is
/// `define void @f() {`, the lines and `}`.
pub fn blocks(alloc: Global, lines: &str) -> Result<String> {
    let text = format!(in alloc; "define void @f() {{{lines}}}")?;
    let answer = module(alloc, text.as_str())?;
    let body = answer.as_str();
    let body = body.strip_prefix("define void @f() {\n").unwrap_or(body);
    let body = body.strip_suffix("}\n").unwrap_or(body);
    Ok(String::from_str(alloc, body)?)
}

/// Tells whether a text is refused with the first wrong token at this offset.
fn is_wrong_at(alloc: Global, text: &str, at: usize) -> Result<bool> {
    let answer = module(alloc, text)?;
    let want = format!(in alloc; "syntax {at}")?;
    Ok(answer.as_str() == want.as_str())
}

/// Counts the tokens in whose place `*` is the first wrong token, and those after which more is
/// wanted.
pub fn fronts(alloc: Global, text: &str) -> Result<String> {
    let toks = match kept(alloc, text.as_bytes()) {
        Ok(toks) => toks,
        Err(error) => return lex_refusal(alloc, error),
    };
    let mut wrong = 0usize;
    let mut wanting = 0usize;
    for token in &toks {
        let front = from_utf8(part(text.as_bytes(), 0, token.start))?;
        let front = format!(in alloc; "{front}* define")?;
        if is_wrong_at(alloc, front.as_str(), token.start)? {
            wrong = wrong.saturating_add(1);
        }
        let front = from_utf8(part(text.as_bytes(), 0, token.end))?;
        if is_wrong_at(alloc, front, token.end)? {
            wanting = wanting.saturating_add(1);
        }
    }
    let count = toks.len();
    Ok(format!(in alloc; "{count} tokens, {wrong} wrong, {wanting} wanting")?)
}
