//! Steps from an address to another one, by indices that are numbers.

ghost use Rattle.std.specs.Prelude.{◌≡◌, ◌%◌, ◌^◌, List, map, slice_index};
ghost use Rattle.ir_model.specs.Values.{MemoryBlock};
ghost use Rattle.ir_model.specs.Pointers.{is_in_block, stepped, walked};
ghost use Rattle.ir_program.specs.Strides.{scaled_only};
ghost use Rattle.mem_cells.specs.Shapes.{pointer_shape, value_shape};
ghost use Rattle.program_tables.specs.Shapes.{stride_shape};
ghost use Rattle.program_steps.specs.Steps.{index_shape};
ghost use Rattle.program_consts.specs.Rooms.{AreSizesOf};
ghost use Rattle.program_consts.specs.Walks.{IsNumbered, Counts, AreSteps, index_value, step_length, whole_length};

use ir_arith::extended;
use ir_type_tests::bits_of;
use program_steps::Index;
use program_tables::{Pointer, Stride, Value};

/// Returns how far a step leads by an index, modulo 2^64.
fn step_length(stride: Stride, index: Index) -> u64
    requires numbered { IsNumbered (index_shape index) }
    requires counted { Counts (stride_shape stride) (index_shape index) }
    ensures { result ≡ step_length (stride_shape stride) (index_shape index) % 2 ^ 64 }
{
    match stride {
        Stride::Field { offset } => offset,
        Stride::Scaled { width, size } => {
            let number = index.number.unwrap_or(0);
            extended(width, bits_of(width, number)).wrapping_mul(size)
        }
    }
}

/// Returns how far steps lead together, modulo 2^64.
fn whole_length(strides: &[Stride], indices: &[Index]) -> u64
    requires { AreSteps (map stride_shape strides.now) (map index_shape indices.now) }
    ensures { result ≡
        whole_length (map stride_shape strides.now) (map index_shape indices.now) % 2 ^ 64 }
{
    let mut far: u64 = 0;
    for k in 0..indices.len() {
        far = far.wrapping_add(step_length(strides[k], indices[k]));
    }
    far
}

/// Returns the size of a block, which is 0 where it isn't there.
fn size_of(sizes: &[u64], block: u64) -> u64
    ensures { result ≡ slice_index sizes.now block }
{
    match sizes.get(block as usize) {
        Some(size) => *size,
        None => 0,
    }
}

/// Tells whether an address lies in its block or just past its end.
fn is_in_block(sizes: &[u64], p: Pointer) -> bool
    ensures { (memory : List MemoryBlock) → AreSizesOf memory sizes.now →
        result ≡ is_in_block memory (pointer_shape p) }
{
    p.offset <= size_of(sizes, p.block)
}

/// Returns the address at a distance; with `inbounds`, poison outside of the block.
fn step_by(sizes: &[u64], inbounds: bool, p: Pointer, far: u64) -> Value
    ensures { (memory : List MemoryBlock) → AreSizesOf memory sizes.now →
        value_shape result ≡ stepped inbounds memory (pointer_shape p) far }
{
    let moved = Pointer {
        block: p.block,
        offset: p.offset.wrapping_add(far),
    };
    if inbounds && !(is_in_block(sizes, p) && is_in_block(sizes, moved)) {
        return Value::Poison;
    }
    Value::Address(moved)
}

/// Returns where steps lead from a value, in memory whose blocks have these sizes.
pub fn walk(
    sizes: &[u64],
    inbounds: bool,
    strides: &[Stride],
    start: Value,
    indices: &[Index],
) -> Value
    requires { AreSteps (map stride_shape strides.now) (map index_shape indices.now) }
    ensures { (memory : List MemoryBlock) → AreSizesOf memory sizes.now →
        let steps = map stride_shape strides.now in
        value_shape result ≡ walked inbounds steps memory (value_shape start)
        (scaled_only steps (map index_value (map index_shape indices.now))) }
{
    if strides.is_empty() {
        return start;
    }
    match start {
        Value::Address(p) => step_by(sizes, inbounds, p, whole_length(strides, indices)),
        Value::Integer(..) | Value::Poison => Value::Poison,
    }
}
