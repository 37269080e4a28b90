//! The last instructions of blocks.

ghost use Rattle.std.specs.Prelude.{◌↔◌, ℕ, List, map, IsTrue, IfOk};
ghost use Rattle.ir_tree.specs.Shape.{branch, switch, return_void, return_value};
ghost use Rattle.ir_tree.specs.ShapeOf.{case_shape};
ghost use Rattle.ir_rules.specs.Instructions.{IsWellTyped};
ghost use Rattle.ir_check_insts.specs.Surroundings.{names_of, around_shape, ty_val_in, KnowsTyVal, IsAround};

use crate::around::Around;
use ir_same::same_ty;
use ir_tree::module::{Case, TyVal};
use ir_type_tests::{are_cases, integer_width, is_scalar, is_void};
use std::alloc::{AllocError, Global};

impl<'a> Around<'a> {
    /// Tells whether a branch on a condition is well typed.
    pub fn is_branch(&self, condition: &TyVal) -> bool
        requires around { IsAround self.now }
        requires known { KnowsTyVal self.now condition.now }
        ensures { (met unmet : List ℕ) → IsTrue result ↔ IsWellTyped (around_shape self.now)
            (branch (ty_val_in self.now condition.now) met unmet) }
    {
        self.fits_as_bit(condition)
    }

    /// Tells whether a `switch` is well typed.
    pub fn is_switch(
        &self,
        alloc: Global,
        value: &TyVal,
        cases: &[Case],
    ) -> Result<bool, AllocError>
        requires around { IsAround self.now }
        requires known { KnowsTyVal self.now value.now }
        ensures { IfOk result (λ is. (otherwise : List ℕ) → IsTrue is ↔
            IsWellTyped (around_shape self.now) (switch (ty_val_in self.now value.now) otherwise
            (map (case_shape (names_of self.now)) cases.now))) }
    {
        if !self.fits(value) {
            return Ok(false);
        }
        match integer_width(&value.ty) {
            Some(width) => are_cases(alloc, width, cases),
            None => Ok(false),
        }
    }

    /// Tells whether `ret void` is well typed.
    pub fn is_return_void(&self) -> bool
        requires { IsAround self.now }
        ensures { IsTrue result ↔ IsWellTyped (around_shape self.now) return_void }
    {
        is_void(&self.function.ret)
    }

    /// Tells whether a `ret` with a value is well typed.
    pub fn is_return(&self, value: &TyVal) -> bool
        requires around { IsAround self.now }
        requires known { KnowsTyVal self.now value.now }
        ensures { IsTrue result ↔ IsWellTyped (around_shape self.now)
            (return_value (ty_val_in self.now value.now)) }
    {
        same_ty(&value.ty, &self.function.ret) && is_scalar(&value.ty) && self.fits(value)
    }
}
