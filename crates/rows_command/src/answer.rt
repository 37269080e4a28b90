//! The answers of a case.

use crate::case::Case;
use crate::escape::{escaped, unescaped};
use anyhow::{Context, Result, bail};
use sr_base::{MemSink, MemStore};
use sr_command::swiftr;
use std::alloc::{AllocError, Global};

/// Makes the store that a case begins with.
fn store_of(alloc: Global, common: &Case, case: &Case) -> Result<MemStore> {
    let mut store = MemStore::new(Vec::from_slice(alloc, &case.store)?);
    for file in common.files.iter() {
        store.add(&file.name, &file.bytes)?;
    }
    for file in case.files.iter() {
        store.add(&file.name, &file.bytes)?;
    }
    Ok(store)
}

/// Makes a sink that takes so many bytes a put at most, and fails at the puts of these numbers.
fn sink_of(alloc: Global, most: usize, failing: &[u64]) -> Result<MemSink> {
    if most == 0 {
        bail!("a put takes one byte at least");
    }
    Ok(MemSink::new(most, Vec::from_slice(alloc, failing)?))
}

/// Appends that the line before came so many times more.
fn push_again(text: &mut String, count: u64) -> Result<(), AllocError> {
    if count > 0 {
        writeln!(text, "again {count}")?;
    }
    Ok(())
}

/// Appends lines, each after a word; equal lines in a row stand there once, and their number.
fn push_lines(text: &mut String, word: &str, lines: &str) -> Result<(), AllocError> {
    let mut last = "";
    let mut again = 0u64;
    for line in lines.lines() {
        if line == last {
            again = again.saturating_add(1);
        } else {
            push_again(text, again)?;
            writeln!(text, "{word}{line}")?;
            last = line;
            again = 0;
        }
    }
    push_again(text, again)
}

/// Returns the words of a command, between blanks; `""` stands for the empty word.
fn words_of(alloc: Global, text: &str) -> Result<Vec<String>> {
    let mut words = Vec::new(alloc);
    for word in text.split(' ') {
        if word == "\"\"" {
            words.push(String::new(alloc))?;
        } else if word != "" {
            words.push(String::from_utf8(unescaped(alloc, word)?)?)?;
        }
    }
    Ok(words)
}

/// Returns what comes of a command: its status, what the sinks took, and the faults counted.
fn answer(alloc: Global, case: &Case, text: &str, store: &mut MemStore) -> Result<String> {
    let mut out = sink_of(alloc, case.most, &case.out)?;
    let mut note = sink_of(alloc, case.most, &case.note)?;
    let words = words_of(alloc, text)?;
    let status = swiftr(alloc, &words, store, &mut out, &mut note);
    let mut text = format!(in alloc; "status {status}\n")?;
    push_lines(&mut text, "out ", &escaped(alloc, out.bytes())?)?;
    push_lines(&mut text, "note ", &escaped(alloc, note.bytes())?)?;
    let (of_store, of_out, of_note) = (store.count(), out.count(), note.count());
    if of_store > 0 || of_out > 0 || of_note > 0 {
        writeln!(text, "faults store={of_store} out={of_out} note={of_note}")?;
    }
    Ok(text)
}

/// Returns what comes of each flip with N below `end`, each R and each B, one a line.
fn flips(alloc: Global, case: &Case, text: &str, store: &mut MemStore) -> Result<String> {
    let (end, front) = text.split_once(' ').context("no words of the flips")?;
    let end = end.parse::<u32>()?;
    let mut lines = String::new(alloc);
    for at in 0..end {
        for reg in 1..32u8 {
            for bit in 0..64u8 {
                let flip = format!(in alloc; "flip {front} {at} {reg} {bit}")?;
                let told = answer(alloc, case, &flip, store)?;
                for line in told.lines() {
                    write!(lines, " {line}")?;
                }
                lines.push('\n')?;
            }
        }
    }
    Ok(lines)
}

/// Returns a file's bytes, sixteen in a line.
fn digits(alloc: Global, bytes: &[u8]) -> Result<String, AllocError> {
    let mut lines = String::new(alloc);
    for row in bytes.chunks(16) {
        let digits = hex::encode(alloc, row)?;
        writeln!(lines, "{digits}")?;
    }
    Ok(lines)
}

/// Appends what comes of a step, after its row.
fn push_step(
    alloc: Global,
    text: &mut String,
    case: &Case,
    row: &str,
    store: &mut MemStore,
) -> Result<()> {
    writeln!(text, "{row}")?;
    let (head, rest) = row.split_once(' ').unwrap_or((row, ""));
    match head {
        "words" => text.push_str(&answer(alloc, case, rest, store)?)?,
        "flips" => push_lines(text, "flip", &flips(alloc, case, rest, store)?)?,
        _ => match store.file(rest) {
            None => text.push_str("no file\n")?,
            Some(bytes) => push_lines(text, "hex ", &digits(alloc, bytes)?)?,
        },
    }
    Ok(())
}

/// Returns the answers of a case, after its title.
pub fn answers(alloc: Global, common: &Case, case: &Case) -> Result<String> {
    let mut store = store_of(alloc, common, case)?;
    let mut text = format!(in alloc; "case {}\n", case.title)?;
    for row in case.steps.iter() {
        push_step(alloc, &mut text, case, row, &mut store)?;
    }
    Ok(text)
}
