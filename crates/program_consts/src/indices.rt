//! Constants as indices.

ghost use Rattle.std.specs.Prelude.{◌≡◌, List, ℕ, map, IfOk};
ghost use Rattle.ir_tree.specs.Shape.{typed_row};
ghost use Rattle.ir_tree.specs.ShapeOf.{ty_shape, const_shape, typed_shape};
ghost use Rattle.ir_rules.specs.Constants.{const_number};
ghost use Rattle.ir_program.specs.Strides.{width_of};
ghost use Rattle.ir_program.specs.Constants.{const_index, row_indices};
ghost use Rattle.program_steps.specs.Steps.{index_shape};

use ir_tree::types::{Const, Ty, Typed};
use program_steps::Index;
use std::alloc::{AllocError, Global};

/// Returns how many bits an integer type has; of another type none.
pub fn width_of(ty: &Ty) -> u8
    ensures { (names : List (List ℕ)) → result ≡ width_of (ty_shape names ty.now) }
{
    match ty {
        Ty::Int(bits) => *bits,
        _ => 0,
    }
}

/// Returns the number that a constant is, if it is one.
fn number_of(c: &Const) -> Option<i128>
    ensures { (names : List (List ℕ)) → result ≡ const_number (const_shape names c.now) }
{
    match c {
        Const::Int(value) => Some(*value),
        _ => None,
    }
}

/// Returns a constant as an index.
fn index_of(typed: &Typed) -> Index
    ensures { (names : List (List ℕ)) →
        index_shape result ≡ const_index (typed_shape names typed.now) }
{
    Index {
        width: width_of(&typed.ty),
        number: number_of(&typed.value),
    }
}

/// Returns constants as indices.
pub fn indices_of(alloc: Global, row: &[Typed]) -> Result<Vec<Index>, AllocError>
    ensures { (names : List (List ℕ)) → IfOk result (λ indices. map index_shape indices.items
        ≡ row_indices (typed_row (map (typed_shape names) row.now))) }
{
    let mut indices = Vec::new(alloc);
    for typed in row {
        indices.push(index_of(typed))?;
    }
    Ok(indices)
}
