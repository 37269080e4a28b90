//! Answers the cases in the files of `data/` through the public calls of the crates of the IR.
//!
//! README.md says what the files hold.
#![tactic(auto)]

mod constants;
mod layouts;
mod lexical;
mod modules;
mod rows;
mod tables;

use anyhow::{Context, Result};
use std::alloc::Global;
use std::fs;
use std::rt::Files;

/// The files that have a case in each row.
const FILES: [&str; 12] = [
    "words.txt",
    "tokens.txt",
    "kept.txt",
    "meanings.txt",
    "names.txt",
    "entries.txt",
    "types.txt",
    "constants.txt",
    "layouts.txt",
    "lines.txt",
    "fronts.txt",
    "texts.txt",
];

/// Answers a case of a file.
fn answer(alloc: Global, file: &str, text: &str) -> Result<String> {
    match file {
        "words.txt" => lexical::word(alloc, text),
        "tokens.txt" => lexical::tokens_of(alloc, text),
        "kept.txt" => lexical::kept_of(alloc, text),
        "meanings.txt" => lexical::meanings(alloc, text),
        "names.txt" => tables::numbers(alloc, text),
        "entries.txt" => tables::entry(alloc, text),
        "types.txt" => constants::types(alloc, text),
        "constants.txt" => constants::constants(alloc, text),
        "layouts.txt" => layouts::layouts(alloc, text),
        "lines.txt" => modules::blocks(alloc, text),
        "fronts.txt" => modules::fronts(alloc, text),
        _ => modules::module(alloc, text),
    }
}

/// Prints the answers to the rows of a file.
fn answer_rows(rt: &(impl Files + Print + AllocGlobal), file: &str) -> Result<()> {
    println!(rt; "# {file}")?;
    let rows = fs::read_to_string(rt, file).context(format_args!("reading {file}"))?;
    for row in rows.as_str().lines() {
        let text = rows::text_of(rt.alloc(), row).context(format_args!("reading {row}"))?;
        let answer = answer(rt.alloc(), file, text.as_str())?;
        let shown = rows::shown(rt.alloc(), answer.as_str())?;
        println!(rt; "{row} -> {shown}")?;
    }
    Ok(())
}

/// Prints the answers to the texts of a file, which has a line of three hyphens between two.
fn answer_modules(rt: &(impl Files + Print + AllocGlobal), file: &str) -> Result<()> {
    println!(rt; "# {file}")?;
    let texts = fs::read_to_string(rt, file).context(format_args!("reading {file}"))?;
    for text in texts.as_str().split("---\n") {
        let answer = modules::module_and_spots(rt.alloc(), text)?;
        println!(rt; "---\n{answer}")?;
    }
    Ok(())
}

fn main(rt: HostRuntime) -> Result<()> {
    for file in FILES {
        answer_rows(&rt, file)?;
    }
    answer_modules(&rt, "modules.txt")
}
