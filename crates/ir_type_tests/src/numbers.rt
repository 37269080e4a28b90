//! Numbers against the widths of integer types.

ghost use Rattle.std.specs.Prelude.{◌≡◌, ◌↔◌, ◌≤◌, List, ℕ, IsTrue};
ghost use Rattle.ir_tree.specs.ShapeOf.{ty_shape};
ghost use Rattle.ir_rules.specs.Constants.{IsInWidth, IsLiteral};
ghost use Rattle.ir_rules.specs.Instructions.{Converts, bits_of};

use ir_tree::module::Conv;
use ir_tree::types::Ty;

/// Tells whether a number is one of so many bits, with a sign or without one.
fn is_in_width(width: u8, value: i128) -> bool
    requires some { 1 ≤ width }
    requires small { width ≤ 64 }
    ensures { IsTrue result ↔ IsInWidth width value }
{
    let size = value.unsigned_abs();
    if value < 0 {
        size <= 1u128 << (width - 1)
    } else {
        size < 1u128 << width
    }
}

/// Tells whether a number may stand for a value of a type.
pub fn is_literal(value: i128, ty: &Ty) -> bool
    ensures { (names : List (List ℕ)) → IsTrue result ↔ IsLiteral value (ty_shape names ty.now) }
{
    match ty {
        Ty::Int(bits) if 1 <= *bits && *bits <= 64 => is_in_width(*bits, value),
        _ => false,
    }
}

/// Returns the bits of a number without a sign, as so many bits hold it.
pub fn bits_of(width: u8, value: i128) -> u64
    requires { width ≤ 64 }
    ensures { result ≡ bits_of width value }
{
    value.rem_euclid(1i128 << width) as u64
}

/// Tells whether a conversion may lead from a type to another: between integers, an extension to more
/// bits, a truncation to fewer.
pub fn converts(conversion: Conv, from: &Ty, to: &Ty) -> bool
    ensures { (names : List (List ℕ)) → IsTrue result ↔
        Converts conversion (ty_shape names from.now) (ty_shape names to.now) }
{
    match (from, to) {
        (Ty::Int(from), Ty::Int(to)) => match conversion {
            Conv::Zext | Conv::Sext => *from < *to,
            Conv::Trunc => *to < *from,
        },
        _ => false,
    }
}
