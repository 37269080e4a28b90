//! Whether the types of functions are proper, apart from their instructions.

ghost use Rattle.std.specs.Prelude.{◌≡◌, ◌↔◌, List, [], ◌∷◌, ℕ, map, IsTrue, codes};
ghost use Rattle.std.specs.List.{AllByRecursion};
ghost use Rattle.ir_tree.specs.NameTable.{text_of};
ghost use Rattle.ir_tree.specs.Shape.{integer};
ghost use Rattle.ir_tree.specs.ShapeOf.{ty_shape, param_shape, declare_shape, function_shape};
ghost use Rattle.ir_rules.specs.Constants.{IsScalar};
ghost use Rattle.ir_rules.specs.TypeRules.{HasOutsideTypes, IsProperDeclare, IsProperHead};

use ir_tree::module::{Declare, Function, Param};
use ir_tree::names::{NameId, Names};
use ir_tree::types::Ty;
use ir_type_tests::{is_integer_of, is_returned, is_scalar};

/// Tells whether the name of a number is this one. A number that no name has stands for the empty name.
pub fn is_named(names: &Names, id: NameId, name: &[u8]) -> bool
    ensures { IsTrue result ↔ (text_of names.now id.0 ≡ name.now) }
{
    match names.text(id) {
        Some(text) => text == name,
        None => name.is_empty(),
    }
}

/// Tells whether these types are one `i32`.
fn are_one_i32(types: &[Ty]) -> bool
    ensures { (names : List (List ℕ)) → IsTrue result ↔
        (map (ty_shape names) types.now ≡ integer 32 ∷ []) }
{
    match types {
        [ty] => is_integer_of(32, ty),
        _ => false,
    }
}

/// Tells whether a declared function returns an `i32` and takes one.
fn puts_byte(d: &Declare) -> bool
    ensures { (names : List (List ℕ)) → IsTrue result ↔
        (((declare_shape names d.now).ret ≡ integer 32)
        × ((declare_shape names d.now).params ≡ integer 32 ∷ [])) }
{
    is_integer_of(32, &d.ret) && are_one_i32(&d.params)
}

/// Tells whether a declared function returns an `i32` and takes nothing.
fn gets_byte(d: &Declare) -> bool
    ensures { (names : List (List ℕ)) → IsTrue result ↔
        (((declare_shape names d.now).ret ≡ integer 32)
        × ((declare_shape names d.now).params ≡ [])) }
{
    is_integer_of(32, &d.ret) && d.params.is_empty()
}

/// Tells whether a function has the types of `putchar` or `getchar`, if it has its name.
fn has_outside_types(names: &Names, d: &Declare) -> bool
    ensures { IsTrue result ↔ HasOutsideTypes (declare_shape names.now d.now) }
{
    let puts = !is_named(names, d.name, b"putchar") || puts_byte(d);
    let gets = !is_named(names, d.name, b"getchar") || gets_byte(d);
    puts && gets
}

/// Tells whether each of these types is scalar.
fn are_scalar(types: &[Ty]) -> bool
    ensures { (names : List (List ℕ)) → IsTrue result ↔
        AllByRecursion IsScalar (map (ty_shape names) types.now) }
{
    for ty in types {
        if !is_scalar(ty) {
            return false;
        }
    }
    true
}

/// Tells whether the type of each of these parameters is scalar.
fn have_scalars(params: &[Param]) -> bool
    ensures { (names : List (List ℕ)) → IsTrue result ↔
        AllByRecursion (λ p. IsScalar p.ty) (map (param_shape names) params.now) }
{
    for param in params {
        if !is_scalar(&param.ty) {
            return false;
        }
    }
    true
}

/// Tells whether the types of a declared function are proper.
pub fn is_proper_declare(names: &Names, d: &Declare) -> bool
    ensures { IsTrue result ↔ IsProperDeclare (declare_shape names.now d.now) }
{
    is_returned(&d.ret) && are_scalar(&d.params) && has_outside_types(names, d)
}

/// Tells whether the types in the head of a function are proper.
pub fn is_proper_head(f: &Function) -> bool
    ensures { (names : List (List ℕ)) → IsTrue result ↔ IsProperHead (function_shape names f.now) }
{
    is_returned(&f.ret) && have_scalars(&f.params)
}
