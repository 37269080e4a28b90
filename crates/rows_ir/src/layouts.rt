//! Layouts of named types.

use crate::modules::read;
use anyhow::Result;
use ir_layout::Layouts;
use ir_tree::types::Ty;
use std::alloc::{AllocError, Global};

/// Appends where the fields of a structure begin.
fn push_offsets(shown: &mut String, layouts: &Layouts, ty: &Ty) -> Result<(), AllocError> {
    if let Ty::Struct(fields, packed) = ty {
        shown.push_str(" at")?;
        for index in 0..fields.len() {
            match layouts.offset_of(fields, *packed, index) {
                Some(at) => write!(shown, " {at}")?,
                None => shown.push_str(" nowhere")?,
            }
        }
    }
    Ok(())
}

/// Shows of each named type of a module its size, its alignment and where its fields begin, or that
/// it has no layout.
pub fn layouts(alloc: Global, text: &str) -> Result<String> {
    let parsed = match read(alloc, text)? {
        Ok(parsed) => parsed,
        Err(why) => return Ok(why),
    };
    let layouts = Layouts::of_module(alloc, &parsed.module)?;
    let mut shown = String::new(alloc);
    for (number, named) in parsed.module.types.iter().enumerate() {
        if number > 0 {
            shown.push_str("; ")?;
        }
        match layouts.layout_of(&named.ty) {
            Some(layout) => {
                write!(shown, "{} {}", layout.size, layout.align)?;
                push_offsets(&mut shown, &layouts, &named.ty)?;
            }
            None => shown.push_str("none")?,
        }
    }
    Ok(shown)
}
