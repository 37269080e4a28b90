//! What is moved between values and memory.

ghost use Rattle.std.specs.Prelude.{◌≡◌, List, ℕ};
ghost use Rattle.ir_tree.specs.ShapeOf.{ty_shape};
ghost use Rattle.ir_program.specs.Constants.{access_of};

use ir_model::Access;
use ir_tree::types::Ty;

/// Returns what is moved where a value of a type is loaded or stored.
pub fn access_of(ty: &Ty) -> Access
    ensures { (names : List (List ℕ)) → result ≡ access_of (ty_shape names ty.now) }
{
    match ty {
        Ty::Int(bits) if *bits <= 8 => Access::I8,
        Ty::Int(bits) if *bits <= 16 => Access::I16,
        Ty::Int(bits) if *bits <= 32 => Access::I32,
        Ty::Int(_) => Access::I64,
        Ty::Ptr => Access::Ptr,
        Ty::Void | Ty::Array(..) | Ty::Struct(..) | Ty::Named(_) => Access::I8,
    }
}
