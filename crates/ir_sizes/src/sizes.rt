//! The size of a type, and where a field of a structure begins.

ghost use Rattle.std.specs.Prelude.{◌≡◌, ℕ, length, true, Some};
ghost use Rattle.std.specs.List.{IsDistinct};
ghost use Rattle.std.specs.Str.{bytes_eq};
ghost use Rattle.ir_tree.specs.Known.{module_known, ty_known};
ghost use Rattle.ir_tree.specs.ShapeOf.{module_shape, ty_shape};
ghost use Rattle.ir_layout.specs.declared.sizes.Layout.{Layout};
ghost use Rattle.ir_layout.specs.Rules.{HasLayout, IsSized};
ghost use Rattle.ir_sizes.specs.Fields.{HasField, IsOffset, HasPlaceWithin};

use crate::nested::{first_type, layout_within, offset_among};
use ir_tree::module::Module;
use ir_tree::types::Ty;

/// Returns the size of a type, in bytes.
///
/// This takes no memory. The time grows with how often named types hold each other, so what asks often
/// makes an `ir_layout::Layouts` once.
pub fn size_of(m: &Module, ty: &Ty) -> u64
    requires known { module_known m.now ≡ true }
    requires names { ty_known (length m.now.names) ty.now ≡ true }
    requires sized { IsSized (module_shape m.now).types (ty_shape m.now.names ty.now) }
    ensures { (l : Layout) →
        HasLayout (module_shape m.now).types (ty_shape m.now.names ty.now) l → result ≡ l.size }
{
    // The proof takes from this that names are distinct.
    let _names = m.names.len();
    layout_within(m, m.types.len(), ty).unwrap().size
}

/// Returns where a field begins, in bytes, in the structure that a type is, by the types that names stand for.
///
/// This takes no memory, and the time of `size_of` for each field up to this one.
pub fn offset_of(m: &Module, ty: &Ty, field: u64) -> u64
    requires known { module_known m.now ≡ true }
    requires names { ty_known (length m.now.names) ty.now ≡ true }
    requires sized { IsSized (module_shape m.now).types (ty_shape m.now.names ty.now) }
    requires field { HasField (module_shape m.now).types (ty_shape m.now.names ty.now) field }
    ensures { IsOffset (module_shape m.now).types (ty_shape m.now.names ty.now) field result }
{
    // The proof takes from this that names are distinct.
    let _names = m.names.len();
    offset_within(m, m.types.len(), ty, field).unwrap()
}

/// Returns where a field begins in the structure that a type is, if it has its place where named types nest
/// so deep at most.
fn offset_within(m: &Module, depth: usize, ty: &Ty, field: u64) -> Option<u64>
    requires known { module_known m.now ≡ true }
    requires names { ty_known (length m.now.names) ty.now ≡ true }
    requires distinct { IsDistinct bytes_eq m.now.names }
    ensures { (at : ℕ) → HasPlaceWithin depth (module_shape m.now).types
        (ty_shape m.now.names ty.now) field at → result ≡ Some at }
{
    match ty {
        Ty::Struct(fields, packed) => offset_among(m, depth, fields, *packed, field),
        Ty::Named(id) => {
            if depth == 0 {
                return None;
            }
            match first_type(&m.types, *id) {
                Some(ty) => offset_within(m, depth - 1, ty, field),
                None => None,
            }
        }
        _ => None,
    }
}
