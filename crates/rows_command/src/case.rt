//! A case: the files that it begins with, what fails, and what it does.

use crate::escape::unescaped;
use anyhow::{Context, Result, bail};
use std::alloc::Global;

/// A file that a case begins with.
#[derive(Drop)]
pub struct Given {
    pub name: String,
    pub bytes: Vec<u8>,
}

/// A case, as its rows say.
#[derive(Drop)]
pub struct Case {
    pub title: String,
    pub files: Vec<Given>,
    /// The calls of the store that fail.
    pub store: Vec<u64>,
    /// The puts on `out` that fail.
    pub out: Vec<u64>,
    /// The puts on `note` that fail.
    pub note: Vec<u64>,
    /// How many bytes a put takes at most.
    pub most: usize,
    /// The rows that ask for an answer.
    pub steps: Vec<String>,
}

/// Returns the bytes of an executable: the words of its text, and after ` data ` its data.
fn program(alloc: Global, text: &str) -> Result<Vec<u8>> {
    let (code, data) = text.split_once(" data ").unwrap_or((text, ""));
    let mut words = Vec::new(alloc);
    for word in code.split(' ') {
        words.push(u32::from_str_radix(word, 16)?)?;
    }
    let data = unescaped(alloc, data)?;
    if words.len() > 1_000_000 || data.len() > 1_000_000 {
        bail!("too large a program");
    }
    Ok(elf_file::write(alloc, &words, &data, 0)?)
}

/// Returns a text so many times.
fn repeated(alloc: Global, text: &str) -> Result<Vec<u8>> {
    let (count, piece) = text.split_once(' ').context("no text to repeat")?;
    let piece = unescaped(alloc, piece)?;
    let mut bytes = Vec::new(alloc);
    for _ in 0..count.parse::<u32>()? {
        bytes.extend_from_slice(&piece)?;
    }
    Ok(bytes)
}

/// Returns the bytes that a row adds to a file.
fn content(alloc: Global, head: &str, rest: &str) -> Result<Vec<u8>> {
    match head {
        "text" => unescaped(alloc, rest),
        "hex" => Ok(hex::decode(alloc, rest)?),
        "repeat" => repeated(alloc, rest),
        "program" => program(alloc, rest),
        _ => bail!("no row begins with this word"),
    }
}

/// Returns the numbers between blanks.
fn numbers(alloc: Global, text: &str) -> Result<Vec<u64>> {
    let mut numbers = Vec::new(alloc);
    for word in text.split(' ') {
        numbers.push(word.parse::<u64>()?)?;
    }
    Ok(numbers)
}

impl Case {
    /// Makes a case of a title, whose puts take so many bytes at most.
    fn new(alloc: Global, title: &str, most: usize) -> Result<Case> {
        Ok(Case {
            title: String::from_str(alloc, title)?,
            files: Vec::new(alloc),
            store: Vec::new(alloc),
            out: Vec::new(alloc),
            note: Vec::new(alloc),
            most,
            steps: Vec::new(alloc),
        })
    }

    /// Makes calls of a device fail.
    fn fail(&mut self, alloc: Global, text: &str) -> Result<()> {
        let (device, calls) = text.split_once(' ').context("no calls that fail")?;
        let calls = numbers(alloc, calls)?;
        match device {
            "store" => self.store = calls,
            "out" => self.out = calls,
            "note" => self.note = calls,
            _ => bail!("no device of this name"),
        }
        Ok(())
    }

    /// Adds what a row says.
    fn add(&mut self, alloc: Global, row: &str) -> Result<()> {
        let (head, rest) = row.split_once(' ').unwrap_or((row, ""));
        match head {
            "words" | "flips" | "show" => self.steps.push(String::from_str(alloc, row)?)?,
            "file" => self.files.push(Given {
                name: String::from_str(alloc, rest)?,
                bytes: Vec::new(alloc),
            })?,
            "put" => self.most = rest.parse::<usize>()?,
            "fail" => self.fail(alloc, rest)?,
            _ => match self.files.last_mut() {
                Some(file) => {
                    let more = content(alloc, head, rest)?;
                    file.bytes.extend_from_slice(&more)?;
                }
                None => bail!("no file stands before this row"),
            },
        }
        Ok(())
    }
}

/// Parses a data file: what stands before the first case, which all have in common, and the cases.
/// Empty lines and those that begin with `#` are no rows.
pub fn parse(alloc: Global, text: &str) -> Result<(Case, Vec<Case>)> {
    let mut common = Case::new(alloc, "", usize::MAX)?;
    let mut cases = Vec::new(alloc);
    for row in text.lines() {
        if let Some(title) = row.strip_prefix("case ") {
            cases.push(Case::new(alloc, title, common.most)?)?;
        } else if row != "" && !row.starts_with('#') {
            let added = match cases.last_mut() {
                Some(case) => case.add(alloc, row),
                None => common.add(alloc, row),
            };
            added.context(format_args!("{row}"))?;
        }
    }
    Ok((common, cases))
}
