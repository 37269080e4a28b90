//! The steps of a `getelementptr`, and its operands.

ghost use Rattle.std.specs.Prelude.{◌≡◌, ◌++◌, ◌∷◌, [], List, ℕ, true, length, map, IfOk, OnOk};
ghost use Rattle.std.specs.List.{list_all};
ghost use Rattle.ir_tree.specs.Known.{ty_known, ty_val_known};
ghost use Rattle.ir_tree.specs.ShapeOf.{ty_shape, val_shape, ty_val_shape};
ghost use Rattle.ir_layout.specs.Rules.{IsSized};
ghost use Rattle.ir_rules.specs.Constants.{WalksBehind, const_number};
ghost use Rattle.ir_rules.specs.Instructions.{Fits, val_number};
ghost use Rattle.ir_program.specs.Strides.{scaled_only};
ghost use Rattle.ir_program.specs.Operands.{operand_index, steps_of, typed_operand};
ghost use Rattle.program_tables.specs.Shapes.{stride_shape, operand_shape};
ghost use Rattle.program_steps.specs.Steps.{index_shape};
ghost use Rattle.program_actions.specs.Around.{IsAround, around_of, names_around, AllFit};
ghost use Rattle.program_actions.specs.Scaled.{is_scaled_at};

use crate::around::Around;
use ir_tree::module::{TyVal, Val};
use ir_tree::types::{Const, Ty};
use program_consts::width_of;
use program_steps::Index;
use program_tables::{Operand, Stride};
use std::alloc::{AllocError, Global};

/// Returns the number that an operand is, if it is a constant one.
fn number_of(val: &Val) -> Option<i128>
    ensures { (names : List (List ℕ)) → result ≡ val_number (val_shape names val.now) }
{
    match val {
        Val::Fixed(Const::Int(value)) => Some(*value),
        _ => None,
    }
}

/// Returns an operand as an index.
fn index_of(x: &TyVal) -> Index
    ensures { (names : List (List ℕ)) →
        index_shape result ≡ operand_index (ty_val_shape names x.now) }
{
    Index {
        width: width_of(&x.ty),
        number: number_of(&x.val),
    }
}

/// Returns operands as indices.
fn indices_of(alloc: Global, row: &[TyVal]) -> Result<Vec<Index>, AllocError>
    ensures { IfOk result (λ indices. (names : List (List ℕ)) → map index_shape indices.items
        ≡ map operand_index (map (ty_val_shape names) row.now)) }
{
    let mut indices = Vec::new(alloc);
    for x in row {
        indices.push(index_of(x))?;
    }
    Ok(indices)
}

/// Tells whether the step of a number has an operand.
fn is_scaled_at(strides: &[Stride], k: usize) -> bool
    ensures { result ≡ is_scaled_at strides.now k }
{
    match strides.get(k) {
        Some(Stride::Scaled { .. }) => true,
        Some(Stride::Field { .. }) | None => false,
    }
}

impl Around<'_> {
    /// Returns the steps of a `getelementptr`.
    pub fn steps_of(
        &self,
        alloc: Global,
        ty: &Ty,
        indices: &[TyVal],
    ) -> Result<Vec<Stride>, AllocError>
        requires around { IsAround self.now }
        requires types { ty_known (length (names_around self.now)) ty.now ≡ true }
        requires sized { IsSized (around_of self.now).within.types
            (ty_shape (names_around self.now) ty.now) }
        requires walks { WalksBehind (around_of self.now).within.types
            (ty_shape (names_around self.now) ty.now)
            (map (λ x. val_number x.val) (map (ty_val_shape (names_around self.now)) indices.now)) }
        ensures { IfOk result (λ strides. map stride_shape strides.items ≡ steps_of
            (around_of self.now) (ty_shape (names_around self.now) ty.now)
            (map (ty_val_shape (names_around self.now)) indices.now)) }
    {
        let steps = indices_of(alloc, indices)?;
        self.constants.steps.strides_of(alloc, ty, &steps)
    }

    /// Appends the operands of the indices that are counted.
    fn push_scaled(
        &self,
        alloc: Global,
        operands: &mut Vec<Operand>,
        strides: &[Stride],
        indices: &[TyVal],
    ) -> Result<(), AllocError>
        requires around { IsAround self.now }
        requires names { list_all (ty_val_known (length (names_around self.now))) indices.now
            ≡ true }
        requires proper { AllFit self.now indices.now }
        ensures { OnOk result (map operand_shape operands.new.items
            ≡ map operand_shape operands.old.items ++ scaled_only (map stride_shape strides.now)
            (map (typed_operand (around_of self.now))
            (map (ty_val_shape (names_around self.now)) indices.now))) }
    {
        for (k, x) in indices.iter().enumerate() {
            if is_scaled_at(strides, k) {
                let operand = self.typed_operand(alloc, x)?;
                operands.push(operand)?;
            }
        }
        Ok(())
    }

    /// Returns the operands of a `getelementptr`: the address, and an index for each step that is counted.
    pub fn walked(
        &self,
        alloc: Global,
        ty: &Ty,
        base: &TyVal,
        indices: &[TyVal],
    ) -> Result<Vec<Operand>, AllocError>
        requires around { IsAround self.now }
        requires types { ty_known (length (names_around self.now)) ty.now ≡ true }
        requires names { list_all (ty_val_known (length (names_around self.now))) indices.now
            ≡ true }
        requires base_names { ty_val_known (length (names_around self.now)) base.now ≡ true }
        requires sized { IsSized (around_of self.now).within.types
            (ty_shape (names_around self.now) ty.now) }
        requires walks { WalksBehind (around_of self.now).within.types
            (ty_shape (names_around self.now) ty.now)
            (map (λ x. val_number x.val) (map (ty_val_shape (names_around self.now)) indices.now)) }
        requires proper { AllFit self.now indices.now }
        requires base_proper { Fits (around_of self.now)
            (ty_val_shape (names_around self.now) base.now) }
        ensures { IfOk result (λ operands. map operand_shape operands.items
            ≡ typed_operand (around_of self.now) (ty_val_shape (names_around self.now) base.now)
            ∷ scaled_only (steps_of (around_of self.now) (ty_shape (names_around self.now) ty.now)
            (map (ty_val_shape (names_around self.now)) indices.now))
            (map (typed_operand (around_of self.now))
            (map (ty_val_shape (names_around self.now)) indices.now))) }
    {
        let strides = self.steps_of(alloc, ty, indices)?;
        let mut operands = Vec::new(alloc);
        operands.push(self.typed_operand(alloc, base)?)?;
        self.push_scaled(alloc, &mut operands, &strides, indices)?;
        Ok(operands)
    }
}
