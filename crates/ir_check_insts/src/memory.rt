//! Instructions on memory.

ghost use Rattle.std.specs.Prelude.{◌≡◌, ◌↔◌, Bool, true, map, IsTrue};
ghost use Rattle.std.specs.List.{list_all, AllByRecursion};
ghost use Rattle.ir_tree.specs.Known.{ty_val_known};
ghost use Rattle.ir_tree.specs.Shape.{alloca, load, store, get_element};
ghost use Rattle.ir_rules.specs.Constants.{Walks, WalksBehind};
ghost use Rattle.ir_rules.specs.Instructions.{IsStep, IsWellTyped, val_number};
ghost use Rattle.ir_check_insts.specs.Surroundings.{around_shape, count_of, ty_in, ty_val_in, KnowsTy, KnowsTyVal, IsAround};

use crate::around::Around;
use ir_tree::module::TyVal;
use ir_tree::types::Ty;
use ir_type_tests::{has_room, is_integer, is_sized, is_storable, number_of};

impl<'a> Around<'a> {
    /// Tells whether an `alloca` is well typed.
    pub fn is_alloca(&self, ty: &Ty, count: i128) -> bool
        requires around { IsAround self.now }
        requires ty_names { KnowsTy self.now ty.now }
        ensures { IsTrue result ↔ IsWellTyped (around_shape self.now)
            (alloca (ty_in self.now ty.now) count) }
    {
        has_room(&self.types.layouts, ty, count)
    }

    /// Tells whether a `load` is well typed.
    pub fn is_load(&self, ty: &Ty, at: &TyVal) -> bool
        requires around { IsAround self.now }
        requires at_names { KnowsTyVal self.now at.now }
        ensures { IsTrue result ↔ IsWellTyped (around_shape self.now)
            (load (ty_in self.now ty.now) (ty_val_in self.now at.now)) }
    {
        is_storable(ty) && self.fits_as_address(at)
    }

    /// Tells whether a `store` is well typed.
    pub fn is_store(&self, value: &TyVal, at: &TyVal) -> bool
        requires around { IsAround self.now }
        requires value_names { KnowsTyVal self.now value.now }
        requires at_names { KnowsTyVal self.now at.now }
        ensures { IsTrue result ↔ IsWellTyped (around_shape self.now)
            (store (ty_val_in self.now value.now) (ty_val_in self.now at.now)) }
    {
        is_storable(&value.ty) && self.fits(value) && self.fits_as_address(at)
    }

    /// Tells whether an index is an integer of its type.
    fn is_step(&self, index: &TyVal) -> bool
        requires around { IsAround self.now }
        requires known { KnowsTyVal self.now index.now }
        ensures { IsTrue result ↔ IsStep (around_shape self.now) (ty_val_in self.now index.now) }
    {
        is_integer(&index.ty) && self.fits(index)
    }

    /// Tells whether each index is an integer of its type.
    fn are_steps(&self, indices: &[TyVal]) -> bool
        requires around { IsAround self.now }
        requires known { list_all (ty_val_known (count_of self.now)) indices.now ≡ true }
        ensures { IsTrue result ↔ AllByRecursion (IsStep (around_shape self.now))
            (map (ty_val_in self.now) indices.now) }
    {
        for index in indices {
            if !self.is_step(index) {
                return false;
            }
        }
        true
    }

    /// Tells whether indices lead one after the other into a type.
    fn walks(&self, ty: &Ty, indices: &[TyVal]) -> bool
        requires around { IsAround self.now }
        requires ty_names { KnowsTy self.now ty.now }
        ensures { IsTrue result ↔ Walks (around_shape self.now).within.types (ty_in self.now ty.now)
            (map (λ i. val_number i.val) (map (ty_val_in self.now) indices.now)) }
    {
        let mut at = ty;
        for index in indices {
            match self
                .types
                .openings
                .step(self.module, at, number_of(&index.val))
            {
                Some(inner) => at = inner,
                None => return false,
            }
        }
        true
    }

    /// Tells whether the indices after the first one lead into a type.
    fn walks_behind(&self, ty: &Ty, indices: &[TyVal]) -> bool
        requires around { IsAround self.now }
        requires ty_names { KnowsTy self.now ty.now }
        ensures { IsTrue result ↔ WalksBehind (around_shape self.now).within.types
            (ty_in self.now ty.now)
            (map (λ i. val_number i.val) (map (ty_val_in self.now) indices.now)) }
    {
        match indices {
            [] => true,
            [_, rest @ ..] => self.walks(ty, rest),
        }
    }

    /// Tells whether a `getelementptr` is well typed.
    pub fn is_gep(&self, ty: &Ty, base: &TyVal, indices: &[TyVal]) -> bool
        requires around { IsAround self.now }
        requires ty_names { KnowsTy self.now ty.now }
        requires base_names { KnowsTyVal self.now base.now }
        requires known { list_all (ty_val_known (count_of self.now)) indices.now ≡ true }
        ensures { (inbounds : Bool) → IsTrue result ↔ IsWellTyped (around_shape self.now)
            (get_element inbounds (ty_in self.now ty.now) (ty_val_in self.now base.now)
            (map (ty_val_in self.now) indices.now)) }
    {
        is_sized(&self.types.layouts, ty)
            && self.fits_as_address(base)
            && self.are_steps(indices)
            && self.walks_behind(ty, indices)
    }
}
