//! How refusals are written.

use anyhow::{Result, bail};
use ir_check::{CheckError, Which};
use ir_source::SourceError;
use ir_types::TypeError;
use std::alloc::Global;

/// Says why a text has no module.
pub fn source_refusal(alloc: Global, error: SourceError) -> Result<String> {
    match error {
        SourceError::Bad { at } => Ok(format!(in alloc; "bad {at}")?),
        SourceError::Outside { at, len } => Ok(format!(in alloc; "outside {at} of {len}")?),
        SourceError::Deep { at } => Ok(format!(in alloc; "deep {at}")?),
        SourceError::Syntax { at } => Ok(format!(in alloc; "syntax {at}")?),
        SourceError::OutOfMemory => bail!("{error}"),
    }
}

/// Says where the names or the types of a module are wrong.
pub fn type_refusal(alloc: Global, error: TypeError) -> Result<String> {
    match error {
        TypeError::Name { at } => Ok(format!(in alloc; "name {at}")?),
        TypeError::Typing { at } => Ok(format!(in alloc; "typing {at}")?),
        TypeError::OutOfMemory => bail!("{error}"),
    }
}

/// Says why a module isn't proper and within the limits.
pub fn check_refusal(alloc: Global, error: CheckError) -> Result<String> {
    match error {
        CheckError::Name { at } => Ok(format!(in alloc; "name {at}")?),
        CheckError::Typing { at } => Ok(format!(in alloc; "typing {at}")?),
        CheckError::Flow { at } => Ok(format!(in alloc; "flow {at}")?),
        CheckError::NoMain => Ok(String::from_str(alloc, "no main")?),
        CheckError::Limit { which, found, most } => {
            let which = name_of(which);
            Ok(format!(in alloc; "limit {which} found={found} most={most}")?)
        }
        CheckError::OutOfMemory => bail!("{error}"),
    }
}

/// Returns the name of a limit.
fn name_of(which: Which) -> &'static str {
    match which {
        Which::Functions => "functions",
        Which::Params => "params",
        Which::Results => "results",
        Which::Cases => "cases",
        Which::Frame => "frame",
        Which::Globals => "globals",
        Which::Weight => "weight",
    }
}
