//! Whether the names that a constant uses are there.

ghost use Rattle.std.specs.Prelude.{map};
ghost use Rattle.std.specs.List.{list_all, flat_map};
ghost use Rattle.ir_tree.specs.ShapeOf.{const_shape, typed_shape};
ghost use Rattle.ir_tree.specs.Known.{const_known, typed_known};
ghost use Rattle.ir_rules.specs.Uses.{const_uses, typed_uses};
ghost use Rattle.ir_missing.specs.Tells.{Outside, Tells};

use crate::types::ty_there;
use ir_names::ModuleNames;
use ir_tree::types::{Const, Typed};

/// Tells whether the names that a constant uses are there.
#[cycle(constants)]
pub fn const_there(outside: &ModuleNames, value: &Const) -> bool
    ensures { Tells (Outside outside.now) (λ n. const_known n value.now)
        (λ names. const_uses (const_shape names value.now)) result }
{
    match value {
        Const::Int(_) => true,
        Const::Bool(_) => true,
        Const::Null => true,
        Const::Undef => true,
        Const::Poison => true,
        Const::Zero => true,
        Const::Text(_) => true,
        Const::Array(elements) => values_there(outside, elements),
        Const::Struct(fields, _) => values_there(outside, fields),
        Const::Global(id) => outside.global_of(*id).is_some(),
        Const::Gep(_, ty, base, indices) => {
            ty_there(outside, ty) && typed_there(outside, base) && values_there(outside, indices)
        }
    }
}

/// Tells whether the names that a constant and its type use are there.
#[cycle(constants)]
fn typed_there(outside: &ModuleNames, typed: &Typed) -> bool
    ensures { Tells (Outside outside.now) (λ n. typed_known n typed.now)
        (λ names. typed_uses (typed_shape names typed.now)) result }
{
    ty_there(outside, &typed.ty) && const_there(outside, &typed.value)
}

/// Tells whether the names that constants and their types use are there.
#[cycle(constants)]
fn values_there(outside: &ModuleNames, values: &[Typed]) -> bool
    ensures { Tells (Outside outside.now) (λ n. list_all (typed_known n) values.now)
        (λ names. flat_map typed_uses (map (typed_shape names) values.now)) result }
{
    for typed in values {
        if !typed_there(outside, typed) {
            return false;
        }
    }
    true
}
