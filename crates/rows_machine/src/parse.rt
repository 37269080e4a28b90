//! Numbers, words and bytes of a case.

ghost use Rattle.std.specs.Prelude.{◌≤◌, length, IfOk};

use anyhow::{Context, Result, ensure};
use std::alloc::{AllocError, Global};

/// The most words of a program, and the most bytes, that a case may have.
pub const MOST: usize = 1000;

/// Returns a number in hexadecimal.
pub fn hexadecimal(text: &str) -> Result<u64> {
    u64::from_str_radix(text, 16).context(format_args!("{text} is no hexadecimal number"))
}

/// Returns a number in decimal.
pub fn decimal(text: &str) -> Result<u64> {
    text.parse::<u64>()
        .context(format_args!("{text} is no number"))
}

/// Returns the word of an instruction, in hexadecimal.
pub fn instruction_word(text: &str) -> Result<u32> {
    Ok(u32::try_from(hexadecimal(text)?)?)
}

/// Returns the words of a program, each in hexadecimal.
pub fn program(alloc: Global, texts: &[&str]) -> Result<Vec<u32>>
    ensures { IfOk result (λ words. length words.items ≤ 1000) }
{
    let mut words = Vec::new(alloc);
    for text in texts {
        words.push(instruction_word(text)?)?;
    }
    ensure!(words.len() <= MOST, "there are too many words");
    Ok(words)
}

/// Returns bytes in hexadecimal; `-` stands for none.
pub fn bytes(alloc: Global, text: &str) -> Result<Vec<u8>>
    ensures { IfOk result (λ bytes. length bytes.items ≤ 1000) }
{
    if text == "-" {
        return Ok(Vec::new(alloc));
    }
    let bytes = hex::decode(alloc, text)?;
    ensure!(bytes.len() <= MOST, "there are too many bytes");
    Ok(bytes)
}

/// Returns bytes as text in hexadecimal; `-` stands for none.
pub fn shown(alloc: Global, bytes: &[u8]) -> Result<String, AllocError> {
    if bytes.is_empty() {
        return String::from_str(alloc, "-");
    }
    hex::encode(alloc, bytes)
}

/// Returns decimal numbers that stand with commas between them; `-` stands for none.
pub fn numbers(alloc: Global, text: &str) -> Result<Vec<u64>> {
    let mut numbers = Vec::new(alloc);
    if text != "-" {
        for number in text.split(',') {
            numbers.push(decimal(number)?)?;
        }
    }
    Ok(numbers)
}
