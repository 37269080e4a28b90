//! Tests of types.

ghost use Rattle.std.specs.Prelude.{◌≡◌, ◌↔◌, ◌≤◌, List, ℕ, IsTrue, IfSome, IfNone};
ghost use Rattle.ir_tree.specs.Shape.{integer, pointer, void};
ghost use Rattle.ir_tree.specs.ShapeOf.{ty_shape};
ghost use Rattle.ir_rules.specs.Constants.{IsInteger, IsScalar};
ghost use Rattle.ir_rules.specs.Instructions.{IsStorable};
ghost use Rattle.ir_rules.specs.TypeRules.{IsReturned};

use ir_tree::types::Ty;

/// Tells whether a type is an integer of 1 to 64 bits.
pub fn is_integer(ty: &Ty) -> bool
    ensures { (names : List (List ℕ)) → IsTrue result ↔ IsInteger (ty_shape names ty.now) }
{
    match ty {
        Ty::Int(bits) => 1 <= *bits && *bits <= 64,
        _ => false,
    }
}

/// Returns how many bits an integer of 1 to 64 bits has, or `None` of another type.
pub fn integer_width(ty: &Ty) -> Option<u8>
    ensures width { (names : List (List ℕ)) → IfSome result (λ width.
        (ty_shape names ty.now ≡ integer width) × (1 ≤ width) × (width ≤ 64)) }
    ensures none { (names : List (List ℕ)) → IfNone result (IsInteger (ty_shape names ty.now) → ⊥) }
{
    match ty {
        Ty::Int(bits) if 1 <= *bits && *bits <= 64 => Some(*bits),
        _ => None,
    }
}

/// Tells whether a type is an integer of 1 to 64 bits, or that of addresses.
pub fn is_scalar(ty: &Ty) -> bool
    ensures { (names : List (List ℕ)) → IsTrue result ↔ IsScalar (ty_shape names ty.now) }
{
    match ty {
        Ty::Int(bits) => 1 <= *bits && *bits <= 64,
        Ty::Ptr => true,
        _ => false,
    }
}

/// Tells whether a function may return a type: a scalar, or nothing.
pub fn is_returned(ty: &Ty) -> bool
    ensures { (names : List (List ℕ)) → IsTrue result ↔ IsReturned (ty_shape names ty.now) }
{
    match ty {
        Ty::Int(bits) => 1 <= *bits && *bits <= 64,
        Ty::Ptr | Ty::Void => true,
        _ => false,
    }
}

/// Tells whether a type may be loaded and stored: an integer of 8, 16, 32 or 64 bits, or an address.
pub fn is_storable(ty: &Ty) -> bool
    ensures { (names : List (List ℕ)) → IsTrue result ↔ IsStorable (ty_shape names ty.now) }
{
    match ty {
        Ty::Int(bits) => matches!(*bits, 8 | 16 | 32 | 64),
        Ty::Ptr => true,
        _ => false,
    }
}

/// Tells whether a type is that of addresses.
pub fn is_pointer(ty: &Ty) -> bool
    ensures { (names : List (List ℕ)) → IsTrue result ↔ (ty_shape names ty.now ≡ pointer) }
{
    matches!(ty, Ty::Ptr)
}

/// Tells whether a type is `void`.
pub fn is_void(ty: &Ty) -> bool
    ensures { (names : List (List ℕ)) → IsTrue result ↔ (ty_shape names ty.now ≡ void) }
{
    matches!(ty, Ty::Void)
}

/// Tells whether a type is the integer of so many bits.
pub fn is_integer_of(bits: u8, ty: &Ty) -> bool
    ensures { (names : List (List ℕ)) → IsTrue result ↔ (ty_shape names ty.now ≡ integer bits) }
{
    match ty {
        Ty::Int(other) => *other == bits,
        _ => false,
    }
}

/// Tells whether a type is that of bits.
pub fn is_bit(ty: &Ty) -> bool
    ensures { (names : List (List ℕ)) → IsTrue result ↔ (ty_shape names ty.now ≡ integer 1) }
{
    is_integer_of(1, ty)
}
