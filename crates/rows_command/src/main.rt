//! Answers the cases in the data files that the arguments name: what comes of each command of a
//! case, over a store and sinks in memory.
#![tactic(auto)]

mod answer;
mod case;
mod escape;

use anyhow::{Context, Result};
use std::rt::{Env, Files};
use std::{env, fs};

/// Prints the answers of a data file's cases.
fn print_answers(rt: &(impl Files + Print + AllocGlobal), name: &str) -> Result<()> {
    let text = fs::read_to_string(rt, name)?;
    let (common, cases) = case::parse(rt.alloc(), &text)?;
    for case in cases.iter() {
        let answers = answer::answers(rt.alloc(), &common, case)?;
        print!(rt; "{answers}")?;
    }
    Ok(())
}

/// Prints the answers of the data files that the arguments name.
fn run(rt: &(impl Env + Files + Print + AllocGlobal)) -> Result<()> {
    for name in env::args(rt)?.skip(1) {
        print_answers(rt, &name).context(format_args!("{name}"))?;
    }
    Ok(())
}

fn main(rt: HostRuntime) -> Result<()> {
    run(&rt)
}
