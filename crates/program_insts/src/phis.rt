//! What phis take.

ghost use Rattle.std.specs.Prelude.{◌≡◌, true, length, map, IfOk};
ghost use Rattle.std.specs.List.{list_all};
ghost use Rattle.ir_tree.specs.Known.{ty_known, phi_in_known};
ghost use Rattle.ir_tree.specs.ShapeOf.{ty_shape, phi_in_shape};
ghost use Rattle.ir_rules.specs.Instructions.{HasTy};
ghost use Rattle.ir_program.specs.ProgramOf.{input_of};
ghost use Rattle.program_tables.specs.Shapes.{input_shape};
ghost use Rattle.program_actions.specs.Around.{IsAround, around_of, names_around};
ghost use Rattle.program_insts.specs.Numbers.{AreInputs};

use ir_tree::module::PhiIn;
use ir_tree::types::Ty;
use program_actions::Around;
use program_tables::Input;
use std::alloc::{AllocError, Global};

/// Returns what a phi of a type takes from a block.
fn input_of(alloc: Global, around: &Around, ty: &Ty, x: &PhiIn) -> Result<Input, AllocError>
    requires around { IsAround around.now }
    requires types { ty_known (length (names_around around.now)) ty.now ≡ true }
    requires names { phi_in_known (length (names_around around.now)) x.now ≡ true }
    requires proper { HasTy (around_of around.now)
        (phi_in_shape (names_around around.now) x.now).val
        (ty_shape (names_around around.now) ty.now) }
    ensures { IfOk result (λ input. input_shape input ≡ input_of (around_of around.now)
        (ty_shape (names_around around.now) ty.now)
        (phi_in_shape (names_around around.now) x.now)) }
{
    let operand = around.operand_of(alloc, ty, &x.val)?;
    Ok(Input {
        from: around.block_number(x.from),
        operand,
    })
}

/// Returns what a phi of a type takes.
pub fn inputs_of(
    alloc: Global,
    around: &Around,
    ty: &Ty,
    row: &[PhiIn],
) -> Result<Vec<Input>, AllocError>
    requires around { IsAround around.now }
    requires types { ty_known (length (names_around around.now)) ty.now ≡ true }
    requires names { list_all (phi_in_known (length (names_around around.now))) row.now ≡ true }
    requires proper { AreInputs around.now (ty_shape (names_around around.now) ty.now) row.now }
    ensures { IfOk result (λ inputs. map input_shape inputs.items ≡ map (input_of
        (around_of around.now) (ty_shape (names_around around.now) ty.now))
        (map (phi_in_shape (names_around around.now)) row.now)) }
{
    let mut inputs = Vec::new(alloc);
    for x in row {
        inputs.push(input_of(alloc, around, ty, x)?)?;
    }
    Ok(inputs)
}
