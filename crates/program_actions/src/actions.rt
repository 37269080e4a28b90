//! What instructions do.

ghost use Rattle.std.specs.Prelude.{◌≡◌, ◌*◌, ◌≤◌, List, ℕ, unsigned_abs, true, length, map, IfOk};
ghost use Rattle.std.specs.List.{list_all};
ghost use Rattle.ir_tree.specs.NameTable.{IsKnown};
ghost use Rattle.ir_tree.specs.Known.{ty_known, ty_val_known, case_known, body_known};
ghost use Rattle.ir_tree.specs.Shape.{binary, convert, alloca, get_element, jump, branch, switch};
ghost use Rattle.ir_tree.specs.ShapeOf.{ty_shape, val_shape, name_shape, ty_val_shape, case_shape, body_shape};
ghost use Rattle.ir_layout.specs.Rules.{IsSized};
ghost use Rattle.ir_rules.specs.Constants.{WalksBehind};
ghost use Rattle.ir_rules.specs.Instructions.{HasRoom, IsWellTyped, val_number};
ghost use Rattle.ir_model.specs.Operations as model;
ghost use Rattle.ir_model.specs.Programs as programs;
ghost use Rattle.ir_program.specs.Operands.{action_of, steps_of, block_number, program_case};
ghost use Rattle.ir_program.specs.Sizes.{ty_size};
ghost use Rattle.ir_program.specs.Strides.{width_of};
ghost use Rattle.program_tables.specs.Shapes.{action_shape};
ghost use Rattle.program_actions.specs.Around.{IsAround, around_of, names_around};

use crate::around::Around;
use crate::types::access_of;
use ir_tree::module::{Bin, Body, Case, Conv, Flags, TyVal};
use ir_tree::names::NameId;
use ir_tree::types::Ty;
use program_consts::width_of;
use program_tables::{Action, Operation};
use std::alloc::{AllocError, Global};

/// Returns a binary operation on integers of a type.
fn binary(operation: Bin, flags: Flags, ty: &Ty) -> Action
    ensures { (names : List (List ℕ)) → action_shape result ≡ programs.Compute
        (model.Binary operation flags (width_of (ty_shape names ty.now))) }
{
    Action::Compute(Operation::Binary {
        operation,
        flags,
        width: width_of(ty),
    })
}

/// Returns a conversion from an integer type to another.
fn convert(conversion: Conv, from: &Ty, to: &Ty) -> Action
    ensures { (names : List (List ℕ)) → action_shape result ≡ programs.Compute
        (model.Convert conversion (width_of (ty_shape names from.now))
        (width_of (ty_shape names to.now))) }
{
    Action::Compute(Operation::Convert {
        conversion,
        from: width_of(from),
        to: width_of(to),
    })
}

impl Around<'_> {
    /// Returns the room for so many values of a type.
    fn alloca(&self, ty: &Ty, count: i128) -> Action
        requires around { IsAround self.now }
        requires names { ty_known (length (names_around self.now)) ty.now ≡ true }
        requires room { HasRoom (around_of self.now).within.types
            (ty_shape (names_around self.now) ty.now) count }
        ensures { action_shape result ≡ programs.Alloca (unsigned_abs count * ty_size
            (around_of self.now).within.types (ty_shape (names_around self.now) ty.now)) }
    {
        let size = self.constants.steps.layout_of(ty).size;
        Action::Alloca {
            size: (count.unsigned_abs() * u128::from(size)) as u64,
        }
    }

    /// Returns the steps of a `getelementptr`.
    fn walk(
        &self,
        alloc: Global,
        inbounds: bool,
        ty: &Ty,
        indices: &[TyVal],
    ) -> Result<Action, AllocError>
        requires around { IsAround self.now }
        requires types { ty_known (length (names_around self.now)) ty.now ≡ true }
        requires sized { IsSized (around_of self.now).within.types
            (ty_shape (names_around self.now) ty.now) }
        requires walks { WalksBehind (around_of self.now).within.types
            (ty_shape (names_around self.now) ty.now)
            (map (λ x. val_number x.val) (map (ty_val_shape (names_around self.now)) indices.now)) }
        ensures { IfOk result (λ action. action_shape action ≡ programs.Compute (model.Walk inbounds
            (steps_of (around_of self.now) (ty_shape (names_around self.now) ty.now)
            (map (ty_val_shape (names_around self.now)) indices.now)))) }
    {
        let strides = self.steps_of(alloc, ty, indices)?;
        Ok(Action::Compute(Operation::Walk { inbounds, strides }))
    }

    /// Returns the way to a block.
    fn jump(&self, to: NameId) -> Action
        requires around { IsAround self.now }
        requires known { IsKnown (names_around self.now) to.0 }
        ensures { action_shape result ≡ programs.Jump
            (block_number (around_of self.now) (name_shape (names_around self.now) to)) }
    {
        Action::Jump {
            to: self.block_number(to),
        }
    }

    /// Returns the ways to two blocks.
    fn branch(&self, met: NameId, unmet: NameId) -> Action
        requires around { IsAround self.now }
        requires met_known { IsKnown (names_around self.now) met.0 }
        requires unmet_known { IsKnown (names_around self.now) unmet.0 }
        ensures { action_shape result ≡ programs.Branch
            (block_number (around_of self.now) (name_shape (names_around self.now) met))
            (block_number (around_of self.now) (name_shape (names_around self.now) unmet)) }
    {
        Action::Branch {
            met: self.block_number(met),
            unmet: self.block_number(unmet),
        }
    }

    /// Returns the ways of a `switch` on a value of a type.
    fn switch(
        &self,
        alloc: Global,
        ty: &Ty,
        otherwise: NameId,
        row: &[Case],
    ) -> Result<Action, AllocError>
        requires around { IsAround self.now }
        requires known { IsKnown (names_around self.now) otherwise.0 }
        requires names { list_all (case_known (length (names_around self.now))) row.now ≡ true }
        requires width { width_of (ty_shape (names_around self.now) ty.now) ≤ 64 }
        ensures { IfOk result (λ action. action_shape action ≡ programs.Switch
            (block_number (around_of self.now) (name_shape (names_around self.now) otherwise))
            (map (program_case (around_of self.now)
            (width_of (ty_shape (names_around self.now) ty.now)))
            (map (case_shape (names_around self.now)) row.now))) }
    {
        let cases = self.cases_of(alloc, width_of(ty), row)?;
        Ok(Action::Switch {
            otherwise: self.block_number(otherwise),
            cases,
        })
    }

    /// Returns what an instruction does. A phi is none of the instructions by position.
    pub fn action_of(&self, alloc: Global, body: &Body) -> Result<Action, AllocError>
        requires around { IsAround self.now }
        requires names { body_known (length (names_around self.now)) body.now ≡ true }
        requires proper { IsWellTyped (around_of self.now)
            (body_shape (names_around self.now) body.now) }
        ensures { IfOk result (λ action. action_shape action
            ≡ action_of (around_of self.now) (body_shape (names_around self.now) body.now)) }
    {
        match body {
            Body::Binary(operation, flags, ty, _, _) => Ok(binary(*operation, *flags, ty)),
            Body::Icmp(predicate, _, _, _) => Ok(Action::Compute(Operation::Compare {
                predicate: *predicate,
            })),
            Body::Select(_, _, _) => Ok(Action::Compute(Operation::Select)),
            Body::Convert(conversion, from, _, to) => Ok(convert(*conversion, from, to)),
            Body::Freeze(_, _) => Ok(Action::Compute(Operation::Freeze)),
            Body::Alloca(ty, count) => Ok(self.alloca(ty, *count)),
            Body::Load(ty, _) => Ok(Action::Load(access_of(ty))),
            Body::Store(value, _) => Ok(Action::Store(access_of(&value.ty))),
            Body::Gep(inbounds, ty, _, indices) => self.walk(alloc, *inbounds, ty, indices),
            Body::Call(_, callee, _) => Ok(self.called(callee)),
            Body::Jump(to) => Ok(self.jump(*to)),
            Body::Branch(_, met, unmet) => Ok(self.branch(*met, *unmet)),
            Body::Switch(value, otherwise, row) => self.switch(alloc, &value.ty, *otherwise, row),
            Body::RetVoid => Ok(Action::ReturnVoid),
            Body::Ret(_) => Ok(Action::Return),
            Body::Phi(_, _) | Body::Unreachable => Ok(Action::Unreachable),
        }
    }
}
