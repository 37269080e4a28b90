//! Comparisons of addresses, and steps from one to another.

ghost use Rattle.std.specs.Prelude.{◌≡◌, ◌<◌, ◌+◌, ◌%◌, ◌^◌, List, length, map, drop};
ghost use Rattle.std.specs.List.{AllByRecursion, AllZip};
ghost use Rattle.std.specs.Option.{option_map};
ghost use Rattle.ir_model.specs.Values.{MemoryBlock};
ghost use Rattle.ir_model.specs.Pointers.{is_in_block, is_told_apart, compared, compared_apart, distance, stepped, walked};
ghost use Rattle.ir_model.specs.Operations.{compare, operand};
ghost use Rattle.ir_model.specs.Integers.{truth};
ghost use Rattle.ir_typed_runs.specs.Kinds.{HasWidth, IsOfKind, IsPointer, index_kinds};
ghost use Rattle.mem_cells.specs.Shapes.{pointer_shape, value_shape};
ghost use Rattle.mem_cells.specs.Shown.{Shows, block_count};
ghost use Rattle.program_tables.specs.Shapes.{stride_shape};
ghost use Rattle.ir_compute.specs.Operands.{answer_shape, operand_values};
ghost use Rattle.ir_compute.specs.Fitting.{HaveOneKind, FitsIndices, FitsWalk};

use crate::operands::operand;
use ir_arith::{extended, holds};
use ir_model::Why;
use ir_tree::module::Pred;
use mem_cells::{Mem, Pointer, Value};
use program_tables::{Operand, Stride};

/// Compares two integers or two addresses.
///
/// # Errors
/// `Compare` where the addresses have no order, or can't be told apart.
pub fn compare(predicate: Pred, mem: &Mem, x: Value, y: Value) -> Result<Value, Why>
    requires { HaveOneKind (block_count mem.now) (value_shape x) (value_shape y) }
    ensures { (memory : List MemoryBlock) → Shows memory mem.now →
        answer_shape result ≡ compare predicate memory (value_shape x) (value_shape y) }
{
    match (x, y) {
        (Value::Integer(width, a), Value::Integer(_, b)) => {
            Ok(truth(holds(predicate, width, a, b)))
        }
        (Value::Address(p), Value::Address(q)) => compare_pointers(predicate, mem, p, q),
        _ => Ok(Value::Poison),
    }
}

/// Returns the `i1` of a test.
fn truth(test: bool) -> Value
    ensures { value_shape result ≡ truth test }
{
    Value::Integer(1, u64::from(test))
}

/// Compares two addresses.
fn compare_pointers(predicate: Pred, mem: &Mem, p: Pointer, q: Pointer) -> Result<Value, Why>
    requires left { IsPointer (block_count mem.now) (pointer_shape p) }
    requires right { IsPointer (block_count mem.now) (pointer_shape q) }
    ensures { (memory : List MemoryBlock) → Shows memory mem.now →
        answer_shape result ≡ compared predicate memory (pointer_shape p) (pointer_shape q) }
{
    if p.block == q.block {
        if is_in_block(mem, p) && is_in_block(mem, q) {
            return Ok(truth(holds(predicate, 64, p.offset, q.offset)));
        }
    } else if is_told_apart(mem, p) && is_told_apart(mem, q) {
        return compare_apart(predicate);
    }
    Err(Why::Compare)
}

/// Compares addresses of two blocks that can be told apart.
fn compare_apart(predicate: Pred) -> Result<Value, Why>
    ensures { answer_shape result ≡ compared_apart predicate }
{
    match predicate {
        Pred::Eq => Ok(Value::Integer(1, 0)),
        Pred::Ne => Ok(Value::Integer(1, 1)),
        Pred::Ugt
        | Pred::Uge
        | Pred::Ult
        | Pred::Ule
        | Pred::Sgt
        | Pred::Sge
        | Pred::Slt
        | Pred::Sle => Err(Why::Compare),
    }
}

/// Tells whether an address lies in its block or just past its end.
fn is_in_block(mem: &Mem, p: Pointer) -> bool
    requires { p.block < block_count mem.now }
    ensures { (memory : List MemoryBlock) → Shows memory mem.now →
        result ≡ is_in_block memory (pointer_shape p) }
{
    p.offset <= mem.size(p.block)
}

/// Tells whether an address can be told from those of other blocks.
fn is_told_apart(mem: &Mem, p: Pointer) -> bool
    requires { p.block < block_count mem.now }
    ensures { (memory : List MemoryBlock) → Shows memory mem.now →
        result ≡ is_told_apart memory (pointer_shape p) }
{
    (p.block == 0 && p.offset == 0) || (mem.is_live(p.block) && p.offset < mem.size(p.block))
}

/// Returns where steps lead from a value, with the operands from number 1 on as indices.
pub fn walk(
    inbounds: bool,
    strides: &[Stride],
    mem: &Mem,
    operands: &[Operand],
    values: &[Value],
) -> Value
    requires { FitsWalk (block_count mem.now) (map stride_shape strides.now)
        (operand_values values.now operands.now) }
    ensures { (memory : List MemoryBlock) → Shows memory mem.now →
        let vs = operand_values values.now operands.now in
        let strides = map stride_shape strides.now in
        value_shape result ≡ walked inbounds strides memory (operand 0 vs) (drop 1 vs) }
{
    let base = operand(0, operands, values);
    if strides.is_empty() {
        return base;
    }
    let Value::Address(p) = base else {
        return Value::Poison;
    };
    match distance(strides, operands, values) {
        Some(far) => step_by(inbounds, mem, p, far),
        None => Value::Poison,
    }
}

/// Returns the address at a distance; with `inbounds`, poison outside of the block.
fn step_by(inbounds: bool, mem: &Mem, p: Pointer, far: u64) -> Value
    requires { IsPointer (block_count mem.now) (pointer_shape p) }
    ensures { (memory : List MemoryBlock) → Shows memory mem.now →
        value_shape result ≡ stepped inbounds memory (pointer_shape p) far }
{
    let moved = Pointer {
        block: p.block,
        offset: p.offset.wrapping_add(far),
    };
    if inbounds && !(is_in_block(mem, p) && is_in_block(mem, moved)) {
        return Value::Poison;
    }
    Value::Address(moved)
}

/// Returns how far steps lead, modulo 2^64, with the operands from number 1 on as indices.
fn distance(strides: &[Stride], operands: &[Operand], values: &[Value]) -> Option<u64>
    requires { FitsIndices (map stride_shape strides.now)
        (drop 1 (operand_values values.now operands.now)) }
    ensures { let vs = operand_values values.now operands.now in result ≡
        option_map (λ far. far % 2 ^ 64) (distance (map stride_shape strides.now) (drop 1 vs)) }
{
    let mut far: u64 = 0;
    let mut next = 1;
    for stride in strides {
        let step = match *stride {
            Stride::Field { offset } => offset,
            Stride::Scaled { width, size } => {
                let Value::Integer(_, n) = operand(next, operands, values) else {
                    return None;
                };
                next += 1;
                extended(width, n).wrapping_mul(size)
            }
        };
        far = far.wrapping_add(step);
    }
    Some(far)
}
