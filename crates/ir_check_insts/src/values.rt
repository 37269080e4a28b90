//! Instructions that compute a value of others.

ghost use Rattle.std.specs.Prelude.{◌≡◌, ◌↔◌, true, map, IsTrue};
ghost use Rattle.std.specs.List.{list_all, AllByRecursion};
ghost use Rattle.ir_tree.specs.Known.{phi_in_known};
ghost use Rattle.ir_tree.specs.Shape.{phi, binary, icmp, select, convert, freeze};
ghost use Rattle.ir_tree.specs.ShapeOf.{phi_in_shape};
ghost use Rattle.ir_rules.specs.Instructions.{HasTy, IsWellTyped};
ghost use Rattle.ir_check_insts.specs.Surroundings.{names_of, around_shape, count_of, ty_in, val_in, ty_val_in, KnowsTy, KnowsVal, KnowsTyVal, IsAround};
ghost use Rattle.ir_tree.specs.declared.module.Bin.{Bin};
ghost use Rattle.ir_tree.specs.declared.module.Flags.{Flags};
ghost use Rattle.ir_tree.specs.declared.module.Pred.{Pred};

use crate::around::Around;
use ir_tree::module::{Conv, PhiIn, TyVal, Val};
use ir_tree::types::Ty;
use ir_type_tests::{converts, is_integer, is_scalar};

impl<'a> Around<'a> {
    /// Tells whether each input of a phi has its type.
    fn inputs_have(&self, inputs: &[PhiIn], ty: &Ty) -> bool
        requires around { IsAround self.now }
        requires known { list_all (phi_in_known (count_of self.now)) inputs.now ≡ true }
        requires ty_names { KnowsTy self.now ty.now }
        ensures { IsTrue result ↔ AllByRecursion
            (λ i. HasTy (around_shape self.now) i.val (ty_in self.now ty.now))
            (map (phi_in_shape (names_of self.now)) inputs.now) }
    {
        for input in inputs {
            if !self.has_ty(&input.val, ty) {
                return false;
            }
        }
        true
    }

    /// Tells whether a phi is well typed.
    pub fn is_phi(&self, ty: &Ty, inputs: &[PhiIn]) -> bool
        requires around { IsAround self.now }
        requires known { list_all (phi_in_known (count_of self.now)) inputs.now ≡ true }
        requires ty_names { KnowsTy self.now ty.now }
        ensures { IsTrue result ↔ IsWellTyped (around_shape self.now)
            (phi (ty_in self.now ty.now)
            (map (phi_in_shape (names_of self.now)) inputs.now)) }
    {
        is_scalar(ty) && self.inputs_have(inputs, ty)
    }

    /// Tells whether a binary operation is well typed.
    pub fn is_binary(&self, ty: &Ty, left: &Val, right: &Val) -> bool
        requires around { IsAround self.now }
        requires ty_names { KnowsTy self.now ty.now }
        requires left { KnowsVal self.now left.now }
        requires right { KnowsVal self.now right.now }
        ensures { (operation : Bin) (flags : Flags) → IsTrue result ↔
            IsWellTyped (around_shape self.now)
            (binary operation flags (ty_in self.now ty.now)
            (val_in self.now left.now) (val_in self.now right.now)) }
    {
        is_integer(ty) && self.has_ty(left, ty) && self.has_ty(right, ty)
    }

    /// Tells whether a comparison is well typed.
    pub fn is_icmp(&self, ty: &Ty, left: &Val, right: &Val) -> bool
        requires around { IsAround self.now }
        requires ty_names { KnowsTy self.now ty.now }
        requires left { KnowsVal self.now left.now }
        requires right { KnowsVal self.now right.now }
        ensures { (predicate : Pred) → IsTrue result ↔ IsWellTyped (around_shape self.now)
            (icmp predicate (ty_in self.now ty.now)
            (val_in self.now left.now) (val_in self.now right.now)) }
    {
        is_scalar(ty) && self.has_ty(left, ty) && self.has_ty(right, ty)
    }

    /// Tells whether a `select` is well typed.
    pub fn is_select(&self, condition: &TyVal, met: &TyVal, unmet: &TyVal) -> bool
        requires around { IsAround self.now }
        requires condition { KnowsTyVal self.now condition.now }
        requires met { KnowsTyVal self.now met.now }
        requires unmet { KnowsTyVal self.now unmet.now }
        ensures { IsTrue result ↔ IsWellTyped (around_shape self.now)
            (select (ty_val_in self.now condition.now)
            (ty_val_in self.now met.now)
            (ty_val_in self.now unmet.now)) }
    {
        self.fits_as_bit(condition)
            && is_scalar(&met.ty)
            && self.fits(met)
            && self.fits_as(unmet, &met.ty)
    }

    /// Tells whether a conversion is well typed.
    pub fn is_convert(&self, conversion: Conv, ty: &Ty, val: &Val, to: &Ty) -> bool
        requires around { IsAround self.now }
        requires ty_names { KnowsTy self.now ty.now }
        requires val_names { KnowsVal self.now val.now }
        ensures { IsTrue result ↔ IsWellTyped (around_shape self.now)
            (convert conversion (ty_in self.now ty.now)
            (val_in self.now val.now) (ty_in self.now to.now)) }
    {
        is_integer(ty) && is_integer(to) && converts(conversion, ty, to) && self.has_ty(val, ty)
    }

    /// Tells whether a `freeze` is well typed.
    pub fn is_freeze(&self, ty: &Ty, val: &Val) -> bool
        requires around { IsAround self.now }
        requires ty_names { KnowsTy self.now ty.now }
        requires val_names { KnowsVal self.now val.now }
        ensures { IsTrue result ↔ IsWellTyped (around_shape self.now)
            (freeze (ty_in self.now ty.now)
            (val_in self.now val.now)) }
    {
        is_scalar(ty) && self.has_ty(val, ty)
    }
}
