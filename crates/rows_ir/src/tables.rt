//! Names by number, and entries of the sample grammar.

use anyhow::{Result, bail};
use grammar::Stop;
use grammar::sample::{Symbol, read_entry};
use ir_tree::names::Names;
use std::alloc::Global;
use std::str::from_utf8;

/// Numbers names, which have `|` between them, in a new table; shows each number with the name that
/// it then stands for, and how many names there are.
pub fn numbers(alloc: Global, text: &str) -> Result<String> {
    let mut names = Names::new(alloc);
    let mut shown = String::new(alloc);
    for name in text.split("|") {
        if names.len() >= 1 << 31 {
            bail!("too many names");
        }
        let id = names.number(name.as_bytes())?;
        let number = id.0;
        let back = from_utf8(names.text(id).unwrap_or(b"?"))?;
        write!(shown, "{number} {back:?}, ")?;
    }
    let count = names.len();
    write!(shown, "{count} in all")?;
    Ok(shown)
}

/// Returns the symbol that a character stands for: a mark, or a digit.
fn symbol_of(byte: u8) -> Symbol {
    match byte {
        b'-' => Symbol::Minus,
        b'(' => Symbol::Open,
        b')' => Symbol::Close,
        b',' => Symbol::Comma,
        _ => Symbol::Number(byte % 48),
    }
}

/// Shows the entry that symbols begin with, and the number of the next symbol.
pub fn entry(alloc: Global, text: &str) -> Result<String> {
    let symbols = text.bytes().map(symbol_of).collect::<Vec<_>>(alloc)?;
    match read_entry(alloc, &symbols, 0) {
        Ok((entry, end)) => Ok(format!(in alloc; "{entry:?} to {end}")?),
        Err(Stop::WrongSymbol(at)) => Ok(format!(in alloc; "wrong {at}")?),
        Err(Stop::OutOfMemory) => bail!("out of memory"),
    }
}
