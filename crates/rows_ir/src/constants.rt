//! Types and constants.

use crate::lexical::lex_refusal;
use anyhow::{Result, bail};
use ir_const::{ReadError, print_const, print_ty, read_const, read_ty};
use ir_lex::{Token, tokens};
use ir_tree::names::Names;
use std::alloc::Global;
use std::str::from_utf8;

/// What is read.
#[derive(Clone, Copy)]
enum Sort {
    Type,
    Constant,
}

/// Says why no type or constant was read.
fn refusal(alloc: Global, error: ReadError) -> Result<String> {
    match error {
        ReadError::Deep { at } => Ok(format!(in alloc; "deep {at}")?),
        ReadError::Syntax { at } => Ok(format!(in alloc; "syntax {at}")?),
        ReadError::OutOfMemory => bail!("{error}"),
    }
}

/// Reads the type or the constant at a token and returns its printed form with the number of the
/// next token, or why there is none.
fn read_one(
    sort: Sort,
    text: &[u8],
    toks: &[Token],
    from: usize,
    names: &mut Names,
    alloc: Global,
) -> Result<Result<(Vec<u8>, usize), ReadError>> {
    if from > toks.len() || toks.len() >= 1 << 31 || names.len() >= 1 << 31 {
        bail!("too many tokens or names");
    }
    let mut printed = Vec::new(alloc);
    let read = match sort {
        Sort::Type => match read_ty(alloc, text, toks, from, names) {
            Ok((ty, next)) => {
                print_ty(alloc, names, &ty, &mut printed)?;
                Ok(next)
            }
            Err(error) => Err(error),
        },
        Sort::Constant => match read_const(alloc, text, toks, from, names) {
            Ok((value, next)) => {
                print_const(alloc, names, &value, &mut printed)?;
                Ok(next)
            }
            Err(error) => Err(error),
        },
    };
    Ok(read.map(|next| (printed, next)))
}

/// Reads one type or constant after another, up to the last token, and shows each by its printed
/// form and the number of the next token.
fn read_all(alloc: Global, sort: Sort, text: &str) -> Result<String> {
    let toks = match tokens(alloc, text.as_bytes()) {
        Ok(toks) => toks,
        Err(error) => return lex_refusal(alloc, error),
    };
    let mut names = Names::new(alloc);
    let mut shown = String::new(alloc);
    let mut from = 0;
    for _ in 0..=toks.len() {
        match read_one(sort, text.as_bytes(), &toks, from, &mut names, alloc)? {
            Ok((printed, next)) => {
                let printed = from_utf8(&printed)?;
                write!(shown, "{printed} to {next};")?;
                from = next;
            }
            Err(error) => {
                shown.push_str(refusal(alloc, error)?.as_str())?;
                break;
            }
        }
        if from >= toks.len() {
            break;
        }
    }
    Ok(shown)
}

/// Shows the types of a text.
pub fn types(alloc: Global, text: &str) -> Result<String> {
    read_all(alloc, Sort::Type, text)
}

/// Shows the constants of a text.
pub fn constants(alloc: Global, text: &str) -> Result<String> {
    read_all(alloc, Sort::Constant, text)
}
