//! The laws of what is the same.

ghost use Rattle.std.specs.Prelude.{◌≡◌, List, ℕ, length, true};
ghost use Rattle.std.specs.List.{IsDistinct};
ghost use Rattle.std.specs.Str.{bytes_eq};
ghost use Rattle.ir_tree.specs.Known.{ty_known, const_known};
ghost use Rattle.ir_tree.specs.ShapeOf.{ty_shape, const_shape};
ghost use Rattle.ir_tree.specs.declared.types.Ty.{Ty};
ghost use Rattle.ir_tree.specs.declared.types.Const.{Const};
ghost use Rattle.ir_same.specs.Numbered.{numbered_ty, numbered_const};

/// Proves that known types with one shape under distinct names are equal, number for number, and that
/// such types have one shape under each table of names.
pub fn same_types_are_equal()
    ensures equal { (names : List (List ℕ)) → IsDistinct bytes_eq names → (a b : Ty) →
        ty_known (length names) a ≡ true → ty_known (length names) b ≡ true →
        ty_shape names a ≡ ty_shape names b → numbered_ty a ≡ numbered_ty b }
    ensures same { (names : List (List ℕ)) (a b : Ty) → numbered_ty a ≡ numbered_ty b →
        ty_shape names a ≡ ty_shape names b }
{}

/// Proves that known constants with one shape under distinct names are equal, number for number, and that
/// such constants have one shape under each table of names.
pub fn same_constants_are_equal()
    ensures equal { (names : List (List ℕ)) → IsDistinct bytes_eq names → (a b : Const) →
        const_known (length names) a ≡ true → const_known (length names) b ≡ true →
        const_shape names a ≡ const_shape names b → numbered_const a ≡ numbered_const b }
    ensures same { (names : List (List ℕ)) (a b : Const) → numbered_const a ≡ numbered_const b →
        const_shape names a ≡ const_shape names b }
{}
