//! Answers cases of the machine's libraries: reads files of cases, and prints a line for each.
#![tactic(auto)]

mod elf;
mod outside;
mod parse;
mod points;
mod runs;
mod words;

use anyhow::{Context, Result, bail};
use std::alloc::Global;
use std::fs;
use std::rt::Files;

/// The files of cases, in the order in which they are answered.
const FILES: [&str; 9] = [
    "words.txt",
    "steps.txt",
    "runs.txt",
    "images.txt",
    "files.txt",
    "executables.txt",
    "points.txt",
    "sinks.txt",
    "stores.txt",
];

/// Answers a case of a file, by the words of the case, of which the first is its name.
fn answer(alloc: Global, file: &str, case: &[&str]) -> Result<String> {
    match file {
        "words.txt" => words::answer(alloc, case),
        "steps.txt" => runs::answer_step(alloc, case),
        "runs.txt" => runs::answer_run(alloc, case),
        "images.txt" => runs::answer_image(alloc, case),
        "files.txt" => elf::answer_file(alloc, case),
        "executables.txt" => elf::answer_executable(alloc, case),
        "points.txt" => points::answer(alloc, case),
        "sinks.txt" => outside::answer_sink(alloc, case),
        "stores.txt" => outside::answer_store(alloc, case),
        _ => bail!("there are no such cases"),
    }
}

/// Prints the name of a file of cases, and a line for each case in it.
fn print_answers(rt: &(impl Files + Print + AllocGlobal), file: &str) -> Result<()> {
    let alloc = rt.alloc();
    let text = fs::read_to_string(rt, file).context(format_args!("{file}"))?;
    println!(rt; "# {file}")?;
    for line in text.lines() {
        let case: Vec<&str> = line.split_whitespace().collect(alloc)?;
        if case.is_empty() || line.starts_with('#') {
            continue;
        }
        let answer = answer(alloc, file, &case).context(format_args!("{file}: {line}"))?;
        println!(rt; "{}: {answer}", case[0])?;
    }
    Ok(())
}

fn main(rt: HostRuntime) -> Result<()> {
    for file in FILES {
        print_answers(&rt, file)?;
    }
    Ok(())
}
