//! An order of names in which those that a type holds come before it.

ghost use Rattle.std.specs.Prelude.{◌≡◌, ◌<◌, ◌≤◌, length, Some, false, slice_get, IfSome, IfOk, option_copied};
ghost use Rattle.ir_layout.specs.Tables.{type_of_number, AreFirst};

use ir_tree::module::NamedTy;
use ir_tree::types::Ty;
use std::alloc::{AllocError, Global};

/// Returns, for each of so many names, which named type is the first one with it.
pub fn first_types(
    alloc: Global,
    types: &[NamedTy],
    count: usize,
) -> Result<Vec<Option<usize>>, AllocError>
    ensures long { IfOk result (λ first. length first.items ≡ count) }
    ensures first { IfOk result (λ first. AreFirst types.now first.items) }
{
    let mut first = vec![in alloc; None; count]?;
    for at in (0..types.len()).rev() {
        let id = types[at].name.0 as usize;
        if id < count {
            first[id] = Some(at);
        }
    }
    Ok(first)
}

/// Returns the type that a name stands for, if it is that of a named type.
pub fn type_of<'a>(types: &'a [NamedTy], first: &[Option<usize>], id: usize) -> Option<&'a Ty>
    requires first { AreFirst types.now first.now }
    requires within { id < length first.now }
    ensures { option_copied result ≡ type_of_number types.now id }
{
    match first[id] {
        Some(at) => Some(&types[at].ty),
        None => None,
    }
}

/// A step of the way through the named types.
#[derive(Clone, Copy, Debug, PartialEq, Eq)]
enum Step {
    /// The names that this one holds come next.
    Enter(usize),
    /// All names that this one holds have come.
    Leave(usize),
}

/// Appends a step into each name that a type holds.
fn push_held(ty: &Ty, to: &mut Vec<Step>) -> Result<(), AllocError> {
    match ty {
        Ty::Array(_, element) => push_held(element, to),
        Ty::Struct(fields, _) => {
            for field in fields {
                push_held(field, to)?;
            }
            Ok(())
        }
        Ty::Named(id) => {
            to.push(Step::Enter(id.0 as usize))?;
            Ok(())
        }
        _ => Ok(()),
    }
}

/// Appends a step out of a name, and then steps into the names that its type holds, which are taken before it.
fn push_inside(
    types: &[NamedTy],
    first: &[Option<usize>],
    id: usize,
    to: &mut Vec<Step>,
) -> Result<(), AllocError>
    requires first { AreFirst types.now first.now }
    requires within { id < length first.now }
{
    to.push(Step::Leave(id))?;
    match type_of(types, first, id) {
        Some(ty) => push_held(ty, to),
        None => Ok(()),
    }
}

/// Returns the next name that wasn't seen yet. Those that are left meanwhile go into the order.
fn next_unseen(
    steps: &mut Vec<Step>,
    seen: &[bool],
    order: &mut Vec<usize>,
) -> Result<Option<usize>, AllocError>
    ensures { IfOk result (λ next. IfSome next (λ id. slice_get seen.now id ≡ Some false)) }
{
    while let Some(step) = steps.pop() {
        match step {
            Step::Leave(id) => order.push(id)?,
            Step::Enter(id) => {
                if id < seen.len() && !seen[id] {
                    return Ok(Some(id));
                }
            }
        }
    }
    Ok(None)
}

/// Returns the names of types, each after those that its type holds where no type holds itself.
pub fn names_in_order(
    alloc: Global,
    types: &[NamedTy],
    first: &[Option<usize>],
) -> Result<Vec<usize>, AllocError>
    requires { AreFirst types.now first.now }
{
    let mut seen = vec![in alloc; false; first.len()]?;
    let mut order = Vec::new(alloc);
    let mut steps = Vec::new(alloc);
    for ty in types {
        steps.push(Step::Enter(ty.name.0 as usize))?;
    }
    while let Some(id) = next_unseen(&mut steps, &seen, &mut order)? {
        seen[id] = true;
        push_inside(types, first, id, &mut steps)?;
    }
    Ok(order)
}
