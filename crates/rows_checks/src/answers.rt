//! What is answered to a text.

ghost use Rattle.std.specs.Prelude.{◌≡◌, ◌<◌, true, length};
ghost use Rattle.ir_tree.specs.Known.{module_known};
ghost use Rattle.ir_tree.specs.ShapeOf.{module_shape};
ghost use Rattle.ir_rules.specs.TypeRules.{HasTypes};
ghost use Rattle.ir_check.specs.Answers.{IsChecked};

use crate::refusals::{check_refusal, source_refusal, type_refusal};
use anyhow::{Result, bail};
use ir_accept::{Refusal, check_source};
use ir_check::{Checked, frame, weight};
use ir_limits::functions_have_frames;
use ir_source::read_source;
use ir_tree::module::Module;
use ir_types::check_types;
use std::alloc::Global;

/// The longest text that is read.
const MOST: usize = 4 << 20;

/// Tells whether the names and types of a text are right, and where the first fault is if not; or why
/// the text has no module.
pub fn types_of(alloc: Global, text: &str) -> Result<String> {
    if text.len() > MOST {
        bail!("too long a text");
    }
    let parsed = match read_source(alloc, text.as_bytes()) {
        Ok(parsed) => parsed,
        Err(error) => return source_refusal(alloc, error),
    };
    match check_types(alloc, &parsed) {
        Ok(()) => Ok(String::from_str(alloc, "ok")?),
        Err(error) => type_refusal(alloc, error),
    }
}

/// Says why a text has no module that is proper and within the limits.
fn refusal(alloc: Global, error: Refusal) -> Result<String> {
    match error {
        Refusal::Text(error) => source_refusal(alloc, error),
        Refusal::Module(error) => check_refusal(alloc, error),
    }
}

/// Tells whether a text has a module that is proper and within the limits, or why not.
pub fn flow_of(alloc: Global, text: &str) -> Result<String> {
    if text.len() > MOST {
        bail!("too long a text");
    }
    match check_source(alloc, text.as_bytes()) {
        Ok(_) => Ok(String::from_str(alloc, "ok")?),
        Err(error) => refusal(alloc, error),
    }
}

/// Tells the weight of a text's module and the frame of each of its functions, or why it is refused.
pub fn limits_of(alloc: Global, text: &str) -> Result<String> {
    if text.len() > MOST {
        bail!("too long a text");
    }
    match check_source(alloc, text.as_bytes()) {
        Ok(checked) => sizes_of(alloc, &checked),
        Err(error) => refusal(alloc, error),
    }
}

/// Returns the frame of the function of a number of a module whose types are proper.
fn frame_at(m: &Module, at: usize) -> u64
    requires known { module_known m.now ≡ true }
    requires types { HasTypes (module_shape m.now) }
    requires at { at < length m.now.functions.items }
{
    // Each function of such a module has a frame.
    functions_have_frames();
    frame(m, &m.functions[at])
}

/// Writes the weight of a module and the frame of each of its functions.
fn sizes_of(alloc: Global, checked: &Checked) -> Result<String>
    requires { IsChecked checked.now }
{
    let m = &checked.parsed.module;
    let weight = weight(m);
    let mut sizes = format!(in alloc; "ok weight={weight} frames=")?;
    for at in 0..m.functions.len() {
        let frame = frame_at(m, at);
        let comma = if at == 0 { "" } else { "," };
        let piece = format!(in alloc; "{comma}{frame}")?;
        sizes.push_str(piece.as_str())?;
    }
    Ok(sizes)
}
