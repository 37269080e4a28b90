//! Answers the texts in `data/`: whether their names and types are right, or whether they are proper and within
//! the limits, and where not.
//!
//! README.md says how a text is written.
#![tactic(auto)]

mod answers;
mod refusals;
mod rows;

use anyhow::{Context, Result};
use std::alloc::Global;
use std::fs;
use std::rt::Files;

/// A file that has a text in each row, by what is asked of its texts.
const TYPES: &str = "checks.txt";

const FLOW: &str = "flow.txt";

const LIMITS: &str = "limits.txt";

fn main(rt: HostRuntime) -> Result<()> {
    for file in [TYPES, FLOW, LIMITS] {
        let rows = fs::read_to_string(&rt, file).context(format_args!("reading {file}"))?;
        for row in rows.as_str().lines() {
            let text = rows::text_of(rt.alloc(), row).context(format_args!("reading {row}"))?;
            let answer = match file {
                TYPES => answers::types_of(rt.alloc(), text.as_str())?,
                FLOW => answers::flow_of(rt.alloc(), text.as_str())?,
                _ => answers::limits_of(rt.alloc(), text.as_str())?,
            };
            println!(rt; "{row} -> {answer}")?;
        }
    }
    Ok(())
}
