//! Constants as operands.

ghost use Rattle.std.specs.Prelude.{◌≡◌, ◌↔◌, List, ℕ, IsTrue};
ghost use Rattle.ir_tree.specs.ShapeOf.{ty_shape, const_shape, val_shape};
ghost use Rattle.ir_rules.specs.Constants.{IsPlain};
ghost use Rattle.ir_rules.specs.Instructions.{val_number};

use crate::types::is_scalar;
use ir_tree::module::Val;
use ir_tree::types::{Const, Ty};

/// Tells whether a constant of a type may be an operand: not written out part by part, and of a scalar type
/// where it is written without its value. A string may be one, and fits no instruction's type.
pub fn is_plain(c: &Const, ty: &Ty) -> bool
    ensures { (names : List (List ℕ)) → IsTrue result ↔
        IsPlain (const_shape names c.now) (ty_shape names ty.now) }
{
    match c {
        Const::Undef | Const::Poison | Const::Zero => is_scalar(ty),
        Const::Array(_) | Const::Struct(_, _) => false,
        _ => true,
    }
}

/// Returns the number of an operand, where it is a constant one.
pub fn number_of(val: &Val) -> Option<i128>
    ensures { (names : List (List ℕ)) → result ≡ val_number (val_shape names val.now) }
{
    match val {
        Val::Fixed(Const::Int(value)) => Some(*value),
        _ => None,
    }
}
