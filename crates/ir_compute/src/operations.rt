//! What an operation answers.

ghost use Rattle.std.specs.Prelude.{◌≡◌, List};
ghost use Rattle.ir_model.specs.Values.{MemoryBlock};
ghost use Rattle.ir_model.specs.Operations.{compute};
ghost use Rattle.mem_cells.specs.Shown.{Shows, block_count};
ghost use Rattle.program_tables.specs.Shapes.{operation_shape};
ghost use Rattle.ir_compute.specs.Operands.{answer_shape, operand_values};
ghost use Rattle.ir_compute.specs.Fitting.{FitsOperands};

use crate::numbers::{binary, chosen, frozen, resized};
use crate::operands::operand;
use crate::pointers::{compare, walk};
use ir_model::Why;
use mem_cells::{Mem, Value};
use program_tables::{Operand, Operation};

/// Computes an operation on operands, by the values of an activation.
///
/// # Errors
/// Why the program has no meaning, where it has none.
#[tactic(auto, unfolding(ir_model::specs::Operations::compute))]
pub fn compute(
    operation: &Operation,
    operands: &[Operand],
    values: &[Value],
    mem: &Mem,
) -> Result<Value, Why>
    requires { FitsOperands (block_count mem.now) (operation_shape operation.now)
        (operand_values values.now operands.now) }
    ensures { (memory : List MemoryBlock) → Shows memory mem.now → answer_shape result ≡
        compute (operation_shape operation.now) memory (operand_values values.now operands.now) }
{
    let first = operand(0, operands, values);
    match operation {
        Operation::Binary {
            operation,
            flags,
            width,
        } => {
            binary(
                *operation,
                *flags,
                *width,
                first,
                operand(1, operands, values),
            )
        }
        Operation::Compare { predicate } => {
            compare(*predicate, mem, first, operand(1, operands, values))
        }
        Operation::Select => {
            let met = operand(1, operands, values);
            let unmet = operand(2, operands, values);
            Ok(chosen(first, met, unmet))
        }
        Operation::Convert {
            conversion,
            from,
            to,
        } => { Ok(resized(*conversion, *from, *to, first)) }
        Operation::Freeze => frozen(first),
        Operation::Walk { inbounds, strides } => {
            Ok(walk(*inbounds, strides.as_slice(), mem, operands, values))
        }
    }
}
