//! The chains of names in which each stands for the next one.

ghost use Rattle.std.specs.Prelude.{◌≡◌, ◌<◌, length};
ghost use Rattle.ir_layout.specs.Tables.{AreFirst};

use ir_layout::type_of;
use ir_tree::module::NamedTy;
use ir_tree::types::Ty;
use std::alloc::AllocError;

/// Returns the name that a name stands for, if it stands for one.
fn next_name(types: &[NamedTy], first: &[Option<usize>], id: usize) -> Option<usize>
    requires first { AreFirst types.now first.now }
    requires within { id < length first.now }
{
    match type_of(types, first, id) {
        Some(Ty::Named(next)) => Some(next.0 as usize),
        _ => None,
    }
}

/// Appends a name and those after it in its chain, up to one that was seen.
pub fn push_chain(
    types: &[NamedTy],
    first: &[Option<usize>],
    start: usize,
    seen: &mut [bool],
    chain: &mut Vec<usize>,
) -> Result<(), AllocError>
    requires first { AreFirst types.now first.now }
    requires long { length seen.old ≡ length first.now }
{
    let mut next = Some(start);
    while let Some(id) = next {
        if id >= seen.len() || seen[id] {
            return Ok(());
        }
        seen[id] = true;
        chain.push(id)?;
        next = next_name(types, first, id);
    }
    Ok(())
}
