//! Whether a module defines `main`.

ghost use Rattle.std.specs.Prelude.{◌≡◌, ◌↔◌, [], ℕ, List, IsTrue, map};
ghost use Rattle.ir_tree.specs.Shape.{integer};
ghost use Rattle.ir_tree.specs.ShapeOf.{function_shape, module_shape};
ghost use Rattle.ir_proper.specs.Proper.{IsMain, HasMain};
ghost use Rattle.ir_check.specs.Mains.{SomeIsMain};

use ir_tree::module::{Function, Module};
use ir_tree::names::Names;
use ir_type_tests::is_integer_of;
use ir_types::is_named;

/// Tells whether a function returns an `i32` and takes nothing.
fn gives_status(f: &Function) -> bool
    ensures { (names : List (List ℕ)) → IsTrue result ↔
        (((function_shape names f.now).ret ≡ integer 32)
        × ((function_shape names f.now).params ≡ [])) }
{
    is_integer_of(32, &f.ret) && f.params.is_empty()
}

/// Tells whether a function is where a program begins.
fn is_main(names: &Names, f: &Function) -> bool
    ensures { IsTrue result ↔ IsMain (function_shape names.now f.now) }
{
    is_named(names, f.name, b"main") && gives_status(f)
}

/// Tells whether one of some functions is where a program begins.
fn some_is_main(names: &Names, functions: &[Function]) -> bool
    ensures { IsTrue result ↔ SomeIsMain (map (function_shape names.now) functions.now) }
{
    for f in functions {
        if is_main(names, f) {
            return true;
        }
    }
    false
}

/// Tells whether a module defines `main`.
pub fn has_main(m: &Module) -> bool
    ensures { IsTrue result ↔ HasMain (module_shape m.now) }
{
    some_is_main(&m.names, &m.functions)
}
