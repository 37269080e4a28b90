//! The values of operands.

ghost use Rattle.std.specs.Prelude.{◌≡◌, map};
ghost use Rattle.ir_model.specs.States.{value_of};
ghost use Rattle.ir_model.specs.Operations.{operand};
ghost use Rattle.mem_cells.specs.Shapes.{value_shape};
ghost use Rattle.program_tables.specs.Shapes.{operand_shape};
ghost use Rattle.ir_compute.specs.Operands.{operand_values};

use mem_cells::Value;
use program_tables::Operand;

/// Returns the value of an operand, by the values of an activation.
pub fn value_of(values: &[Value], operand: Operand) -> Value
    ensures { value_shape result ≡ value_of (map value_shape values.now) (operand_shape operand) }
{
    match operand {
        Operand::Local(id) => values.get(id).copied().unwrap_or(Value::Poison),
        Operand::Fixed(value) => value,
    }
}

/// Returns the value of the operand of a number, or poison where there is none.
pub fn operand(k: usize, operands: &[Operand], values: &[Value]) -> Value
    ensures { value_shape result ≡ operand k (operand_values values.now operands.now) }
{
    match operands.get(k) {
        Some(operand) => value_of(values, *operand),
        None => Value::Poison,
    }
}
