//! Constants and operands that are the same.

ghost use Rattle.std.specs.Prelude.{◌≡◌, ◌↔◌, List, ℕ, length, true, IsTrue, map};
ghost use Rattle.std.specs.List.{IsDistinct};
ghost use Rattle.std.specs.Str.{bytes_eq};
ghost use Rattle.ir_tree.specs.Known.{const_known, val_known};
ghost use Rattle.ir_tree.specs.ShapeOf.{const_shape, val_shape};
ghost use Rattle.ir_same.specs.Numbered.{numbered_const, numbered_typed};

use crate::types::equal_ty;
use ir_tree::module::Val;
use ir_tree::types::{Const, Typed};

/// Tells whether two constants are the same.
///
/// This holds under each table of distinct names that has the names of both.
pub fn same_const(a: &Const, b: &Const) -> bool
    ensures { (names : List (List ℕ)) → IsDistinct bytes_eq names →
        const_known (length names) a.now ≡ true → const_known (length names) b.now ≡ true →
        IsTrue result ↔ (const_shape names a.now ≡ const_shape names b.now) }
{
    equal_const(a, b)
}

/// Tells whether two constants are the same, number for number.
#[cycle(constants)]
fn equal_const(a: &Const, b: &Const) -> bool
    ensures { IsTrue result ↔ (numbered_const a.now ≡ numbered_const b.now) }
{
    match (a, b) {
        (Const::Int(value), Const::Int(other)) => value == other,
        (Const::Bool(value), Const::Bool(other)) => value == other,
        (Const::Null, Const::Null)
        | (Const::Undef, Const::Undef)
        | (Const::Poison, Const::Poison)
        | (Const::Zero, Const::Zero) => true,
        (Const::Text(bytes), Const::Text(others)) => bytes == others,
        (Const::Array(elements), Const::Array(others)) => equal_row(elements, others),
        (Const::Struct(fields, packed), Const::Struct(others, tight)) => {
            packed == tight && equal_row(fields, others)
        }
        (Const::Global(id), Const::Global(other)) => id == other,
        (Const::Gep(inbounds, ty, base, indices), Const::Gep(within, step, start, others)) => {
            inbounds == within
                && equal_ty(ty, step)
                && equal_typed(base, start)
                && equal_row(indices, others)
        }
        _ => false,
    }
}

/// Tells whether two constants with their types are the same, number for number.
#[cycle(constants)]
fn equal_typed(a: &Typed, b: &Typed) -> bool
    ensures { IsTrue result ↔ (numbered_typed a.now ≡ numbered_typed b.now) }
{
    equal_ty(&a.ty, &b.ty) && equal_const(&a.value, &b.value)
}

/// Tells whether the constants of two rows are the same, number for number.
#[cycle(constants)]
fn equal_row(row: &[Typed], others: &[Typed]) -> bool
    ensures { IsTrue result ↔ (map numbered_typed row.now ≡ map numbered_typed others.now) }
{
    if row.len() != others.len() {
        return false;
    }
    for (i, a) in row.iter().enumerate() {
        if !equal_typed(a, &others[i]) {
            return false;
        }
    }
    true
}

/// Tells whether two operands are the same.
///
/// This holds under each table of distinct names that has the names of both.
pub fn same_val(a: &Val, b: &Val) -> bool
    ensures { (names : List (List ℕ)) → IsDistinct bytes_eq names →
        val_known (length names) a.now ≡ true → val_known (length names) b.now ≡ true →
        IsTrue result ↔ (val_shape names a.now ≡ val_shape names b.now) }
{
    match (a, b) {
        (Val::Local(id), Val::Local(other)) => id == other,
        (Val::Fixed(value), Val::Fixed(other)) => same_const(value, other),
        _ => false,
    }
}
