//! The array or the structure that a type is, by the types that names stand for.

ghost use Rattle.std.specs.Prelude.{◌≡◌, List, ℕ, Bool, true, length, map, IfSome, IfNone};
ghost use Rattle.std.specs.List.{list_all};
ghost use Rattle.ir_tree.specs.Known.{ty_known};
ghost use Rattle.ir_tree.specs.Shape.{TyShape, TyShapes, array, structure, ty_row};
ghost use Rattle.ir_tree.specs.ShapeOf.{module_shape, ty_shape};
ghost use Rattle.ir_rules.specs.Constants.{Opens};
ghost use Rattle.ir_check_consts.specs.Tables.{AreTypeTables};

use crate::tables::TypeTables;
use ir_tree::module::Module;
use ir_tree::types::Ty;

/// Returns how many elements an array type has, and their type.
fn array_parts(ty: &Ty) -> Option<(u64, &Ty)>
    ensures is { (names : List (List ℕ)) → IfSome result (λ parts.
        ty_shape names ty.now ≡ array parts.0 (ty_shape names parts.1.now)) }
    ensures known { (n : ℕ) → ty_known n ty.now ≡ true →
        IfSome result (λ parts. ty_known n parts.1.now ≡ true) }
    ensures none { (names : List (List ℕ)) → IfNone result ((count : ℕ) (element : TyShape) →
        ty_shape names ty.now ≡ array count element → ⊥) }
{
    match ty {
        Ty::Array(count, element) => Some((*count, element)),
        _ => None,
    }
}

/// Returns the fields of a structure type, and whether they are packed.
fn structure_parts(ty: &Ty) -> Option<(&[Ty], bool)>
    ensures is { (names : List (List ℕ)) → IfSome result (λ parts.
        ty_shape names ty.now ≡ structure (ty_row (map (ty_shape names) parts.0.now)) parts.1) }
    ensures known { (n : ℕ) → ty_known n ty.now ≡ true →
        IfSome result (λ parts. list_all (ty_known n) parts.0.now ≡ true) }
    ensures none { (names : List (List ℕ)) → IfNone result ((row : TyShapes) (packed : Bool) →
        ty_shape names ty.now ≡ structure row packed → ⊥) }
{
    match ty {
        Ty::Struct(fields, packed) => Some((fields, *packed)),
        _ => None,
    }
}

/// Returns how many elements the array has that a type is, and their type.
pub fn array_of<'a>(tables: &TypeTables, m: &'a Module, ty: &'a Ty) -> Option<(u64, &'a Ty)>
    requires tables { AreTypeTables m.now tables.now }
    requires known { ty_known (length m.now.names) ty.now ≡ true }
    ensures opens { IfSome result (λ parts. Opens (module_shape m.now).types
        (ty_shape m.now.names ty.now) (array parts.0 (ty_shape m.now.names parts.1.now))) }
    ensures known { IfSome result (λ parts. ty_known (length m.now.names) parts.1.now ≡ true) }
    ensures none { IfNone result ((count : ℕ) (element : TyShape) →
        Opens (module_shape m.now).types (ty_shape m.now.names ty.now) (array count element) → ⊥) }
{
    match tables.openings.opened(m, ty) {
        Some(opened) => array_parts(opened),
        None => None,
    }
}

/// Returns the fields of the structure that a type is, and whether they are packed.
pub fn structure_of<'a>(tables: &TypeTables, m: &'a Module, ty: &'a Ty) -> Option<(&'a [Ty], bool)>
    requires tables { AreTypeTables m.now tables.now }
    requires known { ty_known (length m.now.names) ty.now ≡ true }
    ensures opens { IfSome result (λ parts. Opens (module_shape m.now).types
        (ty_shape m.now.names ty.now)
        (structure (ty_row (map (ty_shape m.now.names) parts.0.now)) parts.1)) }
    ensures known { IfSome result (λ parts.
        list_all (ty_known (length m.now.names)) parts.0.now ≡ true) }
    ensures none { IfNone result ((row : TyShapes) (packed : Bool) →
        Opens (module_shape m.now).types (ty_shape m.now.names ty.now) (structure row packed) → ⊥) }
{
    match tables.openings.opened(m, ty) {
        Some(opened) => structure_parts(opened),
        None => None,
    }
}
