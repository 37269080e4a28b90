//! The number of the function where a program begins.

ghost use Rattle.std.specs.Prelude.{◌≡◌};
ghost use Rattle.make_program.specs.Main.{main_among};

use ir_tree::module::Function;
use ir_tree::names::Names;
use ir_types::is_named;

/// Returns which of some functions is the first one named `main`.
pub fn main_among(names: &Names, functions: &[Function]) -> Option<usize>
    ensures { result ≡ main_among names.now functions.now }
{
    for at in 0..functions.len() {
        if is_named(names, functions[at].name, b"main") {
            return Some(at);
        }
    }
    None
}
