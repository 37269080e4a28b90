//! The public calls.

ghost use Rattle.std.specs.Prelude.{◌≡◌, ◌++◌, OnOk, OnErr};
ghost use Rattle.ir_print_symbols.specs.Printed.{joined};
ghost use Rattle.ir_tree.specs.ShapeOf.{ty_shape, const_shape};
ghost use Rattle.ir_grammar_consts.specs.Spelling.{ty_spelling, const_spelling};

use crate::constants::push_const;
use crate::types::push_ty;
use ir_tree::names::Names;
use ir_tree::types::{Const, Ty};
use std::alloc::{AllocError, Global};

/// Appends the printed form of a type to `to`, in time linear in its length. A name's number that isn't in
/// `names` stands for the empty name.
///
/// # Errors
///
/// Want of memory; then `to` is as before.
pub fn print_ty(alloc: Global, names: &Names, ty: &Ty, to: &mut Vec<u8>) -> Result<(), AllocError>
    ensures ok { OnOk result (to.new.items ≡ to.old.items
        ++ joined (ty_spelling (ty_shape names.now ty.now))) }
    ensures err { OnErr result (to.new.items ≡ to.old.items) }
{
    let mut text = Vec::new(alloc);
    push_ty(names, ty, &mut text)?;
    to.extend_from_slice(&text)?;
    Ok(())
}

/// Appends the printed form of a constant to `to`, as [`print_ty`] does that of a type.
///
/// # Errors
///
/// Want of memory; then `to` is as before.
pub fn print_const(
    alloc: Global,
    names: &Names,
    value: &Const,
    to: &mut Vec<u8>,
) -> Result<(), AllocError>
    ensures ok { OnOk result (to.new.items ≡ to.old.items
        ++ joined (const_spelling (const_shape names.now value.now))) }
    ensures err { OnErr result (to.new.items ≡ to.old.items) }
{
    let mut text = Vec::new(alloc);
    push_const(names, value, &mut text)?;
    to.extend_from_slice(&text)?;
    Ok(())
}
