//! The operands of instructions.

ghost use Rattle.std.specs.Prelude.{◌≡◌, ◌++◌, ◌∷◌, [], List, ℕ, true, length, map, IfOk, OnOk};
ghost use Rattle.std.specs.List.{list_all, AllByRecursion};
ghost use Rattle.ir_tree.specs.Known.{ty_known, val_known, ty_val_known, body_known};
ghost use Rattle.ir_tree.specs.ShapeOf.{ty_shape, val_shape, ty_val_shape, body_shape};
ghost use Rattle.ir_rules.specs.Instructions.{HasTy, Fits, IsWellTyped};
ghost use Rattle.ir_program.specs.Operands.{operand_of, typed_operand, operands_of};
ghost use Rattle.program_tables.specs.Shapes.{operand_shape};
ghost use Rattle.program_actions.specs.Around.{IsAround, around_of, names_around, AllFit};

use crate::around::Around;
use ir_tree::module::{Body, TyVal, Val};
use ir_tree::types::Ty;
use program_tables::Operand;
use std::alloc::{AllocError, Global};

impl Around<'_> {
    /// Returns an operand of a type.
    pub fn operand_of(&self, alloc: Global, ty: &Ty, val: &Val) -> Result<Operand, AllocError>
        requires around { IsAround self.now }
        requires types { ty_known (length (names_around self.now)) ty.now ≡ true }
        requires names { val_known (length (names_around self.now)) val.now ≡ true }
        requires proper { HasTy (around_of self.now)
            (val_shape (names_around self.now) val.now) (ty_shape (names_around self.now) ty.now) }
        ensures { IfOk result (λ operand. operand_shape operand ≡ operand_of (around_of self.now)
            (ty_shape (names_around self.now) ty.now) (val_shape (names_around self.now) val.now)) }
    {
        match val {
            Val::Local(id) => Ok(self.local(*id)),
            Val::Fixed(c) => {
                let value = self.constants.value_of(alloc, ty, c)?;
                Ok(Operand::Fixed(value))
            }
        }
    }

    /// Returns an operand with its type.
    pub fn typed_operand(&self, alloc: Global, x: &TyVal) -> Result<Operand, AllocError>
        requires around { IsAround self.now }
        requires names { ty_val_known (length (names_around self.now)) x.now ≡ true }
        requires proper { Fits (around_of self.now) (ty_val_shape (names_around self.now) x.now) }
        ensures { IfOk result (λ operand. operand_shape operand ≡ typed_operand
            (around_of self.now) (ty_val_shape (names_around self.now) x.now)) }
    {
        self.operand_of(alloc, &x.ty, &x.val)
    }

    /// Returns operands with their types.
    pub fn typed_operands(&self, alloc: Global, row: &[TyVal]) -> Result<Vec<Operand>, AllocError>
        requires around { IsAround self.now }
        requires names { list_all (ty_val_known (length (names_around self.now))) row.now ≡ true }
        requires proper { AllFit self.now row.now }
        ensures { IfOk result (λ operands. map operand_shape operands.items
            ≡ map (typed_operand (around_of self.now))
            (map (ty_val_shape (names_around self.now)) row.now)) }
    {
        let mut operands = Vec::new(alloc);
        for x in row {
            operands.push(self.typed_operand(alloc, x)?)?;
        }
        Ok(operands)
    }

    /// Returns one operand alone.
    fn one(&self, alloc: Global, ty: &Ty, val: &Val) -> Result<Vec<Operand>, AllocError>
        requires around { IsAround self.now }
        requires types { ty_known (length (names_around self.now)) ty.now ≡ true }
        requires names { val_known (length (names_around self.now)) val.now ≡ true }
        requires proper { HasTy (around_of self.now)
            (val_shape (names_around self.now) val.now) (ty_shape (names_around self.now) ty.now) }
        ensures { IfOk result (λ operands. map operand_shape operands.items
            ≡ operand_of (around_of self.now) (ty_shape (names_around self.now) ty.now)
            (val_shape (names_around self.now) val.now) ∷ []) }
    {
        let operand = self.operand_of(alloc, ty, val)?;
        Ok(vec![in alloc; operand]?)
    }

    /// Returns two operands of one type.
    fn two(
        &self,
        alloc: Global,
        ty: &Ty,
        left: &Val,
        right: &Val,
    ) -> Result<Vec<Operand>, AllocError>
        requires around { IsAround self.now }
        requires types { ty_known (length (names_around self.now)) ty.now ≡ true }
        requires left_names { val_known (length (names_around self.now)) left.now ≡ true }
        requires right_names { val_known (length (names_around self.now)) right.now ≡ true }
        requires left_proper { HasTy (around_of self.now)
            (val_shape (names_around self.now) left.now) (ty_shape (names_around self.now) ty.now) }
        requires right_proper { HasTy (around_of self.now)
            (val_shape (names_around self.now) right.now)
            (ty_shape (names_around self.now) ty.now) }
        ensures { IfOk result (λ operands. map operand_shape operands.items
            ≡ operand_of (around_of self.now) (ty_shape (names_around self.now) ty.now)
            (val_shape (names_around self.now) left.now) ∷ operand_of (around_of self.now)
            (ty_shape (names_around self.now) ty.now)
            (val_shape (names_around self.now) right.now) ∷ []) }
    {
        let first = self.operand_of(alloc, ty, left)?;
        let second = self.operand_of(alloc, ty, right)?;
        Ok(vec![in alloc; first, second]?)
    }

    /// Returns the operands of a `select`.
    fn three(
        &self,
        alloc: Global,
        condition: &TyVal,
        met: &TyVal,
        unmet: &TyVal,
    ) -> Result<Vec<Operand>, AllocError>
        requires around { IsAround self.now }
        requires names { ty_val_known (length (names_around self.now)) condition.now ≡ true }
        requires met_names { ty_val_known (length (names_around self.now)) met.now ≡ true }
        requires unmet_names { ty_val_known (length (names_around self.now)) unmet.now ≡ true }
        requires proper { Fits (around_of self.now)
            (ty_val_shape (names_around self.now) condition.now) }
        requires met_proper { Fits (around_of self.now)
            (ty_val_shape (names_around self.now) met.now) }
        requires unmet_proper { Fits (around_of self.now)
            (ty_val_shape (names_around self.now) unmet.now) }
        ensures { IfOk result (λ operands. map operand_shape operands.items
            ≡ typed_operand (around_of self.now)
            (ty_val_shape (names_around self.now) condition.now)
            ∷ typed_operand (around_of self.now) (ty_val_shape (names_around self.now) met.now)
            ∷ typed_operand (around_of self.now) (ty_val_shape (names_around self.now) unmet.now)
            ∷ []) }
    {
        let first = self.typed_operand(alloc, condition)?;
        let second = self.typed_operand(alloc, met)?;
        let third = self.typed_operand(alloc, unmet)?;
        Ok(vec![in alloc; first, second, third]?)
    }

    /// Returns the operands of a `store`: the value and then the address.
    fn stored(&self, alloc: Global, value: &TyVal, at: &TyVal) -> Result<Vec<Operand>, AllocError>
        requires around { IsAround self.now }
        requires names { ty_val_known (length (names_around self.now)) value.now ≡ true }
        requires at_names { ty_val_known (length (names_around self.now)) at.now ≡ true }
        requires proper { Fits (around_of self.now)
            (ty_val_shape (names_around self.now) value.now) }
        requires at_proper { Fits (around_of self.now)
            (ty_val_shape (names_around self.now) at.now) }
        ensures { IfOk result (λ operands. map operand_shape operands.items
            ≡ typed_operand (around_of self.now) (ty_val_shape (names_around self.now) value.now)
            ∷ typed_operand (around_of self.now) (ty_val_shape (names_around self.now) at.now)
            ∷ []) }
    {
        let first = self.typed_operand(alloc, value)?;
        let second = self.typed_operand(alloc, at)?;
        Ok(vec![in alloc; first, second]?)
    }

    /// Returns the operands of an instruction that is no phi. One with a phi's place has none.
    pub fn operands_of(&self, alloc: Global, body: &Body) -> Result<Vec<Operand>, AllocError>
        requires around { IsAround self.now }
        requires names { body_known (length (names_around self.now)) body.now ≡ true }
        requires proper { IsWellTyped (around_of self.now)
            (body_shape (names_around self.now) body.now) }
        ensures { IfOk result (λ operands. map operand_shape operands.items
            ≡ operands_of (around_of self.now) (body_shape (names_around self.now) body.now)) }
    {
        match body {
            Body::Binary(_, _, ty, left, right) | Body::Icmp(_, ty, left, right) => {
                self.two(alloc, ty, left, right)
            }
            Body::Select(condition, met, unmet) => self.three(alloc, condition, met, unmet),
            Body::Convert(_, ty, val, _) | Body::Freeze(ty, val) => self.one(alloc, ty, val),
            Body::Load(_, x) | Body::Branch(x, _, _) | Body::Switch(x, _, _) | Body::Ret(x) => {
                self.one(alloc, &x.ty, &x.val)
            }
            Body::Store(value, at) => self.stored(alloc, value, at),
            Body::Gep(_, ty, base, indices) => self.walked(alloc, ty, base, indices),
            Body::Call(_, _, arguments) => self.typed_operands(alloc, arguments),
            Body::Phi(..) | Body::Alloca(..) | Body::Jump(_) | Body::RetVoid | Body::Unreachable =>
                { Ok(Vec::new(alloc)) }
        }
    }
}
