//! Operands and their types.

ghost use Rattle.std.specs.Prelude.{◌≡◌, ◌↔◌, true, map, IsTrue};
ghost use Rattle.std.specs.List.{list_all, AllByRecursion};
ghost use Rattle.ir_tree.specs.Known.{ty_val_known};
ghost use Rattle.ir_tree.specs.Shape.{integer, pointer};
ghost use Rattle.ir_rules.specs.Instructions.{HasTy, Fits, FitsAs};
ghost use Rattle.ir_check_insts.specs.Surroundings.{around_shape, count_of, ty_in, val_in, ty_val_in, KnowsTy, KnowsVal, KnowsTyVal, IsAround};

use crate::around::Around;
use ir_check_consts::has_const;
use ir_same::same_ty;
use ir_tree::module::{TyVal, Val};
use ir_tree::types::{Const, Ty};
use ir_type_tests::{is_bit, is_plain, is_pointer};

impl<'a> Around<'a> {
    /// Tells whether an operand has a type.
    pub fn has_ty(&self, val: &Val, ty: &Ty) -> bool
        requires around { IsAround self.now }
        requires val_names { KnowsVal self.now val.now }
        requires ty_names { KnowsTy self.now ty.now }
        ensures { IsTrue result ↔ HasTy (around_shape self.now)
            (val_in self.now val.now) (ty_in self.now ty.now) }
    {
        match val {
            Val::Local(id) => self.local_has(*id, ty),
            Val::Fixed(c) => has_const(self.types, self.module, c, ty) && is_plain(c, ty),
        }
    }

    /// Tells whether an operand has the type that is stated with it.
    pub fn fits(&self, x: &TyVal) -> bool
        requires around { IsAround self.now }
        requires known { KnowsTyVal self.now x.now }
        ensures { IsTrue result ↔ Fits (around_shape self.now) (ty_val_in self.now x.now) }
    {
        self.has_ty(&x.val, &x.ty)
    }

    /// Tells whether each operand has the type that is stated with it.
    pub fn all_fit(&self, xs: &[TyVal]) -> bool
        requires around { IsAround self.now }
        requires known { list_all (ty_val_known (count_of self.now)) xs.now ≡ true }
        ensures { IsTrue result ↔ AllByRecursion (Fits (around_shape self.now))
            (map (ty_val_in self.now) xs.now) }
    {
        for x in xs {
            if !self.fits(x) {
                return false;
            }
        }
        true
    }

    /// Tells whether an operand is stated to have a type, and has it.
    pub fn fits_as(&self, x: &TyVal, ty: &Ty) -> bool
        requires around { IsAround self.now }
        requires known { KnowsTyVal self.now x.now }
        requires ty_names { KnowsTy self.now ty.now }
        ensures { IsTrue result ↔ FitsAs (around_shape self.now)
            (ty_val_in self.now x.now) (ty_in self.now ty.now) }
    {
        same_ty(&x.ty, ty) && self.has_ty(&x.val, ty)
    }

    /// Tells whether an operand is stated to be a bit, and is one.
    pub fn fits_as_bit(&self, x: &TyVal) -> bool
        requires around { IsAround self.now }
        requires known { KnowsTyVal self.now x.now }
        ensures { IsTrue result ↔ FitsAs (around_shape self.now)
            (ty_val_in self.now x.now) (integer 1) }
    {
        is_bit(&x.ty) && self.fits(x)
    }

    /// Tells whether an operand is stated to be an address, and is one.
    pub fn fits_as_address(&self, x: &TyVal) -> bool
        requires around { IsAround self.now }
        requires known { KnowsTyVal self.now x.now }
        ensures { IsTrue result ↔ FitsAs (around_shape self.now)
            (ty_val_in self.now x.now) pointer }
    {
        is_pointer(&x.ty) && self.fits(x)
    }
}
