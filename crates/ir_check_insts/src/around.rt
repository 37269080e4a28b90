//! What is around an instruction.

ghost use Rattle.std.specs.Prelude.{◌≡◌, ◌↔◌, ℕ, List, true, length, IsTrue};
ghost use Rattle.std.specs.List.{IsDistinct};
ghost use Rattle.std.specs.Str.{bytes_eq};
ghost use Rattle.ir_tree.specs.NameTable.{text_of, IsKnown};
ghost use Rattle.ir_tree.specs.Known.{ty_known};
ghost use Rattle.ir_tree.specs.ShapeOf.{ty_shape};
ghost use Rattle.ir_rules.specs.Values.{value_ty};
ghost use Rattle.ir_names.specs.Results.{result_shape, IsKnownResult};
ghost use Rattle.ir_check_insts.specs.Surroundings.{names_of, around_shape, ty_in, KnowsTy, IsAround};

use ir_check_consts::TypeTables;
use ir_names::{FunctionNames, ModuleNames, ResultTy};
use ir_same::same_ty;
use ir_tree::module::{Function, Module};
use ir_tree::names::NameId;
use ir_tree::types::Ty;
use ir_type_tests::{is_bit, is_pointer, is_void};

/// What is around an instruction: its module and its function, with their tables.
#[derive(Clone, Copy)]
pub struct Around<'a> {
    /// The module.
    pub module: &'a Module,
    /// The layouts and the openings of its types.
    pub types: &'a TypeTables,
    /// What its names stand for outside of its functions.
    pub names: &'a ModuleNames,
    /// The function.
    pub function: &'a Function,
    /// The values of the function, and what names stand for in it.
    pub values: &'a FunctionNames,
}

/// Tells whether an instruction gives a type.
fn is_result(found: ResultTy, ty: &Ty) -> bool
    ensures { (names : List (List ℕ)) → IsDistinct bytes_eq names →
        IsKnownResult (length names) found.entry → ty_known (length names) ty.now ≡ true →
        IsTrue result ↔ (result_shape names found.entry ≡ ty_shape names ty.now) }
{
    match found {
        ResultTy::Stated(stated) => same_ty(stated, ty),
        ResultTy::Bit => is_bit(ty),
        ResultTy::Address => is_pointer(ty),
        ResultTy::Nothing => is_void(ty),
    }
}

impl<'a> Around<'a> {
    /// Tells whether the value that a name stands for has a type.
    pub fn local_has(&self, id: NameId, ty: &Ty) -> bool
        requires around { IsAround self.now }
        requires known { IsKnown (names_of self.now) id.0 }
        requires ty_names { KnowsTy self.now ty.now }
        ensures { IsTrue result ↔
            (value_ty (around_shape self.now).function (text_of (names_of self.now) id.0)
            ≡ Some (ty_in self.now ty.now)) }
    {
        match self.values.type_of(self.function, id) {
            Some(found) => is_result(found, ty),
            None => false,
        }
    }
}
