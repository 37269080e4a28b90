//! What is around an instruction.

ghost use Rattle.std.specs.Prelude.{◌≡◌};
ghost use Rattle.ir_tree.specs.NameTable.{IsKnown};
ghost use Rattle.ir_tree.specs.ShapeOf.{name_shape};
ghost use Rattle.ir_program.specs.Operands.{block_number, local_or_poison};
ghost use Rattle.ir_rules.specs.Values.{value_of};
ghost use Rattle.program_tables.specs.Shapes.{operand_shape};
ghost use Rattle.program_actions.specs.Around.{IsAround, around_of, names_around};

use ir_names::FunctionNames;
use ir_tree::module::Function;
use ir_tree::names::NameId;
use program_consts::Constants;
use program_tables::{Operand, Value};

/// What is around an instruction: its function, and what names and constants stand for there.
#[derive(Clone, Copy)]
pub struct Around<'a> {
    /// What the constants of the module stand for.
    pub constants: &'a Constants<'a>,
    /// The function.
    pub function: &'a Function,
    /// The values of the function, and what names stand for in it.
    pub values: &'a FunctionNames,
}

/// Returns the operand that is the value of a number.
fn local_or_poison(value: Option<usize>) -> Operand
    ensures { operand_shape result ≡ local_or_poison value }
{
    match value {
        Some(id) => Operand::Local(id),
        None => Operand::Fixed(Value::Poison),
    }
}

impl Around<'_> {
    /// Returns the number of the block that a name stands for.
    pub fn block_number(&self, id: NameId) -> usize
        requires around { IsAround self.now }
        requires known { IsKnown (names_around self.now) id.0 }
        ensures { result ≡ block_number (around_of self.now)
            (name_shape (names_around self.now) id) }
    {
        self.values.block_of(id).unwrap_or(0)
    }

    /// Returns the operand that a name stands for.
    pub fn local(&self, id: NameId) -> Operand
        requires around { IsAround self.now }
        requires known { IsKnown (names_around self.now) id.0 }
        ensures { operand_shape result ≡ local_or_poison
            (value_of (around_of self.now).function (name_shape (names_around self.now) id)) }
    {
        local_or_poison(self.values.value_of(id))
    }
}
