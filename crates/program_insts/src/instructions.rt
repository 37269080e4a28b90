//! Instructions, as they are added to a block.

ghost use Rattle.std.specs.Prelude.{◌≡◌, ◌<◌, ◌^◌, List, ℕ, true, false, length, map, IfOk, OnOk};
ghost use Rattle.std.specs.List.{list_all};
ghost use Rattle.ir_tree.specs.Known.{ty_known, phi_in_known, inst_known, body_known};
ghost use Rattle.ir_tree.specs.Shape.{phi};
ghost use Rattle.ir_tree.specs.ShapeOf.{ty_shape, phi_in_shape, inst_shape, body_shape};
ghost use Rattle.ir_forms.specs.Instructions.{is_phi};
ghost use Rattle.ir_rules.specs.Instructions.{IsWellTyped};
ghost use Rattle.ir_rules.specs.Values.{gives_value};
ghost use Rattle.program_tables.specs.Shapes.{instruction_shape, block_shape};
ghost use Rattle.program_actions.specs.Around.{IsAround, around_of, names_around};
ghost use Rattle.program_insts.specs.Numbers.{AreInputs, numbered, with_inst, number_by, next_by};

use crate::phis::inputs_of;
use ir_names::result_ty;
use ir_tree::module::{Body, Inst, PhiIn};
use ir_tree::types::Ty;
use program_actions::Around;
use program_tables::{Block, Instruction, Phi};
use std::alloc::{AllocError, Global};

/// Tells whether an instruction gives a value.
fn gives_value(inst: &Inst) -> bool
    ensures { (names : List (List ℕ)) → result ≡ gives_value (inst_shape names inst.now) }
{
    inst.result.is_some() || !result_ty(&inst.body).is_void()
}

/// Returns an instruction that is no phi and gives the value of a number, or none.
fn instruction_of(
    alloc: Global,
    around: &Around,
    number: Option<usize>,
    body: &Body,
) -> Result<Instruction, AllocError>
    requires around { IsAround around.now }
    requires names { body_known (length (names_around around.now)) body.now ≡ true }
    requires proper { IsWellTyped (around_of around.now)
        (body_shape (names_around around.now) body.now) }
    ensures { IfOk result (λ x. instruction_shape x ≡ numbered (around_of around.now) number
        (body_shape (names_around around.now) body.now)) }
{
    let action = around.action_of(alloc, body)?;
    let operands = around.operands_of(alloc, body)?;
    Ok(Instruction {
        result: number,
        action,
        operands,
    })
}

/// Adds a phi to a block. One that gives no value is none.
fn push_phi(
    alloc: Global,
    around: &Around,
    number: Option<usize>,
    ty: &Ty,
    row: &[PhiIn],
    block: &mut Block,
) -> Result<(), AllocError>
    requires around { IsAround around.now }
    requires types { ty_known (length (names_around around.now)) ty.now ≡ true }
    requires names { list_all (phi_in_known (length (names_around around.now))) row.now ≡ true }
    requires proper { AreInputs around.now (ty_shape (names_around around.now) ty.now) row.now }
    ensures { OnOk result (block_shape block.new ≡ with_inst (around_of around.now) number
        (phi (ty_shape (names_around around.now) ty.now)
        (map (phi_in_shape (names_around around.now)) row.now)) (block_shape block.old)) }
{
    if let Some(result) = number {
        let inputs = inputs_of(alloc, around, ty, row)?;
        block.phis.push(Phi { result, inputs })?;
    }
    Ok(())
}

/// Adds an instruction that is no phi to a block, where the value that it gives has this number.
fn push_other(
    alloc: Global,
    around: &Around,
    number: Option<usize>,
    body: &Body,
    block: &mut Block,
) -> Result<(), AllocError>
    requires around { IsAround around.now }
    requires names { body_known (length (names_around around.now)) body.now ≡ true }
    requires proper { IsWellTyped (around_of around.now)
        (body_shape (names_around around.now) body.now) }
    requires no_phi { is_phi (body_shape (names_around around.now) body.now) ≡ false }
    ensures { OnOk result (block_shape block.new ≡ with_inst (around_of around.now) number
        (body_shape (names_around around.now) body.now) (block_shape block.old)) }
{
    let instruction = instruction_of(alloc, around, number, body)?;
    block.body.push(instruction)?;
    Ok(())
}

/// Adds an instruction to a block, where the value that it gives has this number.
fn push_inst(
    alloc: Global,
    around: &Around,
    number: Option<usize>,
    body: &Body,
    block: &mut Block,
) -> Result<(), AllocError>
    requires around { IsAround around.now }
    requires names { body_known (length (names_around around.now)) body.now ≡ true }
    requires proper { IsWellTyped (around_of around.now)
        (body_shape (names_around around.now) body.now) }
    ensures { OnOk result (block_shape block.new ≡ with_inst (around_of around.now) number
        (body_shape (names_around around.now) body.now) (block_shape block.old)) }
{
    match body {
        Body::Phi(ty, row) => push_phi(alloc, around, number, ty, row, block),
        _ => push_other(alloc, around, number, body, block),
    }
}

/// Adds an instruction to a block, where the value that it gives has the number `next`, and
/// moves `next` past it.
pub fn push_next(
    alloc: Global,
    around: &Around,
    inst: &Inst,
    block: &mut Block,
    next: &mut usize,
) -> Result<(), AllocError>
    requires around { IsAround around.now }
    requires names { inst_known (length (names_around around.now)) inst.now ≡ true }
    requires proper { IsWellTyped (around_of around.now)
        (inst_shape (names_around around.now) inst.now).body }
    requires room { next_by next.old (inst_shape (names_around around.now) inst.now) < 2 ^ 64 }
    ensures block { OnOk result (block_shape block.new ≡ with_inst (around_of around.now)
        (number_by next.old (inst_shape (names_around around.now) inst.now))
        (inst_shape (names_around around.now) inst.now).body (block_shape block.old)) }
    ensures next { OnOk result (next.new
        ≡ next_by next.old (inst_shape (names_around around.now) inst.now)) }
{
    if gives_value(inst) {
        push_inst(alloc, around, Some(*next), &inst.body, block)?;
        *next += 1;
        Ok(())
    } else {
        push_inst(alloc, around, None, &inst.body, block)
    }
}
