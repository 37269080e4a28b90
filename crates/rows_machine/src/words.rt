//! Words of instructions.

use crate::parse::instruction_word;
use anyhow::{Result, bail};
use rv_inst::{decode, encode, reads, text, writes};
use std::alloc::Global;

/// Answers `WORD`: its instruction's text, word, and registers that it reads and writes.
pub fn answer(alloc: Global, case: &[&str]) -> Result<String> {
    let [word] = case else {
        bail!("a case is a word");
    };
    let Some(instruction) = decode(instruction_word(word)?) else {
        return Ok(String::from_str(alloc, "none")?);
    };
    let mut answer = String::from_utf8(text(alloc, &instruction)?)?;
    write!(answer, " word {:08x} reads", encode(&instruction))?;
    for register in 0..32u8 {
        if reads(&instruction, register) {
            write!(answer, " x{register}")?;
        }
    }
    answer.push_str(" writes")?;
    for register in 0..32u8 {
        if writes(&instruction, register) {
            write!(answer, " x{register}")?;
        }
    }
    Ok(answer)
}
