//! Whether the names that a type uses are there.

ghost use Rattle.std.specs.Prelude.{map};
ghost use Rattle.std.specs.List.{list_all, flat_map};
ghost use Rattle.ir_tree.specs.ShapeOf.{ty_shape};
ghost use Rattle.ir_tree.specs.Known.{ty_known};
ghost use Rattle.ir_rules.specs.Uses.{ty_uses};
ghost use Rattle.ir_missing.specs.Tells.{Outside, Tells};

use ir_names::ModuleNames;
use ir_tree::types::Ty;

/// Tells whether the names that a type uses are there.
#[cycle(types)]
pub fn ty_there(outside: &ModuleNames, ty: &Ty) -> bool
    ensures { Tells (Outside outside.now) (λ n. ty_known n ty.now)
        (λ names. ty_uses (ty_shape names ty.now)) result }
{
    match ty {
        Ty::Int(_) => true,
        Ty::Ptr => true,
        Ty::Void => true,
        Ty::Array(_, element) => ty_there(outside, element),
        Ty::Struct(fields, _) => tys_there(outside, fields),
        Ty::Named(id) => outside.is_type(*id),
    }
}

/// Tells whether the names that types use are there.
#[cycle(types)]
pub fn tys_there(outside: &ModuleNames, types: &[Ty]) -> bool
    ensures { Tells (Outside outside.now) (λ n. list_all (ty_known n) types.now)
        (λ names. flat_map ty_uses (map (ty_shape names) types.now)) result }
{
    for ty in types {
        if !ty_there(outside, ty) {
            return false;
        }
    }
    true
}
