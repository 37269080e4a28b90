//! Rows: the texts that they stand for.

use anyhow::{Context, Result};
use std::alloc::Global;

/// Appends a unit so many times, each time with its number, from 0 on, in the place of `\#`.
fn push_units(alloc: Global, unit: &str, count: u32, text: &mut String) -> Result<()> {
    for number in 0..count {
        let number = format!(in alloc; "{number}")?;
        let piece = unit.replace(alloc, "\\#", number.as_str())?;
        text.push_str(piece.as_str())?;
    }
    Ok(())
}

/// Returns the text that a row stands for.
///
/// `\n`, `\t` and `\r` stand for a line feed, a tab and a carriage return, and `\xN:UNIT\;` for N
/// times the unit; any other `\;` stands for nothing.
pub fn text_of(alloc: Global, row: &str) -> Result<String> {
    let row = row.replace(alloc, "\\n", "\n")?;
    let row = row.as_str().replace(alloc, "\\t", "\t")?;
    let row = row.as_str().replace(alloc, "\\r", "\r")?;
    let mut text = String::new(alloc);
    let mut pieces = row.as_str().split("\\x");
    if let Some(front) = pieces.next() {
        text.push_str(front)?;
    }
    for piece in pieces {
        let (count, rest) = piece.split_once(":").context("no `:` after `\\x`")?;
        let count = count.parse::<u32>().context("no number after `\\x`")?;
        let (unit, after) = rest.split_once("\\;").context("no `\\;` after `\\x`")?;
        push_units(alloc, unit, count, &mut text)?;
        text.push_str(after)?;
    }
    Ok(text.as_str().replace(alloc, "\\;", "")?)
}
