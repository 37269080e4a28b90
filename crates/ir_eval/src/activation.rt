//! Activations.

ghost use Rattle.std.specs.Prelude.{◌≡◌, ◌+◌, ◌-◌, ◌<◌, ◌^◌, ◌++◌, IfOk, OnOk, map, replicate, slice_set, vec_len};
ghost use Rattle.ir_model.specs.Values.{Poison};
ghost use Rattle.ir_model.specs.Programs.{function_at};
ghost use Rattle.ir_model.specs.States.{entered, after};
ghost use Rattle.mem_cells.specs.Shapes.{value_shape};
ghost use Rattle.program_tables.specs.Shapes.{program_shape};
ghost use Rattle.ir_compute.specs.Operands.{operand_values};
ghost use Rattle.ir_eval.specs.Shapes.{activation_shape, values_of, with_values};

use ir_compute::value_of;
use mem_cells::Value;
use program_tables::{Operand, Program};
use std::alloc::{AllocError, Global};

/// A function that has been entered and hasn't returned.
#[derive(Drop)]
pub struct Activation {
    /// Which function.
    pub function: usize,
    /// The block where it stands.
    pub block: usize,
    /// The place in the block, among the instructions that are no phis.
    pub position: usize,
    /// Its values by number.
    pub values: Vec<Value>,
    /// The blocks of memory that it has made, the youngest last.
    pub owned: Vec<u64>,
}

impl Activation {
    /// Sets the value of a number, if it is there.
    pub fn set(&mut self, id: usize, value: Value)
        ensures { activation_shape self.new ≡
            with_values self.old (slice_set (values_of self.old) id (value_shape value)) }
    {
        if id < self.values.len() {
            self.values[id] = value;
        }
    }

    /// Goes on after an instruction, which may have given a value.
    pub fn go_on(&mut self, given: Option<usize>, value: Value)
        requires { self.old.position + 1 < 2 ^ 64 }
        ensures { activation_shape self.new ≡
            after given (value_shape value) (activation_shape self.old) }
    {
        if let Some(id) = given {
            self.set(id, value);
        }
        self.position += 1;
    }
}

/// Enters a function with operands as arguments, by the values of the caller. Its other values are poison.
pub fn entered(
    alloc: Global,
    p: &Program,
    function: usize,
    operands: &[Operand],
    caller: &[Value],
) -> Result<Activation, AllocError>
    ensures { IfOk result (λ a. activation_shape a ≡
        entered (program_shape p.now) function (operand_values caller.now operands.now)) }
{
    let count = value_count(p, function);
    let mut values = Vec::with_capacity(alloc, count.max(operands.len()))?;
    for operand in operands {
        values.push(value_of(caller, *operand))?;
    }
    fill(&mut values, count)?;
    Ok(Activation {
        function,
        block: 0,
        position: 0,
        values,
        owned: Vec::new(alloc),
    })
}

/// Adds poison, so that there are so many values.
fn fill(values: &mut Vec<Value>, count: usize) -> Result<(), AllocError>
    ensures { OnOk result (map value_shape values.new.items ≡
        map value_shape values.old.items ++ replicate (count - vec_len values.old) Poison) }
{
    if values.len() < count {
        values.resize(count, Value::Poison)?;
    }
    Ok(())
}

/// Returns how many values a function has.
fn value_count(p: &Program, function: usize) -> usize
    ensures { result ≡ (function_at (program_shape p.now) function).values }
{
    match p.functions.get(function) {
        Some(function) => function.values,
        None => 0,
    }
}
