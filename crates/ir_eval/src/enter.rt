//! Blocks that are entered, and their phis.

ghost use Rattle.std.specs.Prelude.{◌≡◌, ℕ, ◌+◌, ◌<◌, ◌^◌, length, map, OnOk, vec_len};
ghost use Rattle.ir_model.specs.States.{value_of};
ghost use Rattle.ir_model.specs.Steps.{input_from, taken, at_block, case_of};
ghost use Rattle.mem_cells.specs.Shapes.{value_shape};
ghost use Rattle.program_tables.specs.Shapes.{program_shape, phi_shape, input_shape, operand_shape, case_shape};
ghost use Rattle.ir_eval.specs.Shapes.{activation_shape, values_of, with_values};
ghost use Rattle.ir_eval.specs.Written.{written};

use crate::activation::Activation;
use crate::places::block_in;
use ir_compute::value_of;
use mem_cells::Value;
use program_tables::{Case, Input, Operand, Phi, Program};
use std::alloc::AllocError;

/// Enters a block from where an activation stands. The scratch gathers what the phis take.
pub fn enter(
    p: &Program,
    to: usize,
    a: &mut Activation,
    scratch: &mut Vec<Value>,
) -> Result<(), AllocError>
    ensures { OnOk result (activation_shape a.new ≡
        at_block (program_shape p.now) to (activation_shape a.old)) }
{
    if let Some(block) = block_in(p, a.function, to) {
        take(block.phis.as_slice(), a, scratch)?;
    }
    a.block = to;
    a.position = 0;
    Ok(())
}

/// Sets the values of phis to what they take from where an activation stands: all are read before any is set.
fn take(phis: &[Phi], a: &mut Activation, scratch: &mut Vec<Value>) -> Result<(), AllocError>
    ensures { OnOk result (activation_shape a.new ≡
        with_values a.old (taken a.old.block (values_of a.old) (map phi_shape phis.now))) }
{
    read(phis, a.block, a.values.as_slice(), scratch)?;
    write(phis, a, scratch);
    Ok(())
}

/// Reads what phis take from a block.
fn read(
    phis: &[Phi],
    from: usize,
    values: &[Value],
    scratch: &mut Vec<Value>,
) -> Result<(), AllocError>
    ensures { OnOk result (map value_shape scratch.new.items ≡
        map (λ x. value_of (map value_shape values.now) (input_from from x.inputs))
        (map phi_shape phis.now)) }
{
    scratch.clear();
    for phi in phis {
        scratch.push(value_of(values, input_from(phi.inputs.as_slice(), from)))?;
    }
    Ok(())
}

/// Sets the values of phis to what they took, the last phi first.
fn write(phis: &[Phi], a: &mut Activation, scratch: &mut Vec<Value>)
    requires { vec_len scratch.old ≡ length phis.now }
    ensures { activation_shape a.new ≡ with_values a.old (written (values_of a.old)
        (map (λ x. x.result) phis.now) (map value_shape scratch.old.items)) }
{
    while let Some(value) = scratch.pop() {
        a.set(phis[scratch.len()].result, value);
    }
}

/// Returns what a phi takes from a block: by the first input that names it.
fn input_from(inputs: &[Input], from: usize) -> Operand
    ensures { operand_shape result ≡ input_from from (map input_shape inputs.now) }
{
    for input in inputs {
        if input.from == from {
            return input.operand;
        }
    }
    Operand::Fixed(Value::Poison)
}

/// Returns where the cases of a switch lead from a number, or another block where none has it.
pub fn case_of(number: u64, otherwise: usize, cases: &[Case]) -> usize
    ensures { result ≡ case_of number otherwise (map case_shape cases.now) }
{
    for case in cases {
        if case.number == number {
            return case.to;
        }
    }
    otherwise
}
