//! The bytes that globals have at the start.

ghost use Rattle.std.specs.Prelude.{◌≡◌, ◌≤◌, ◌++◌, List, true, length, map, IfOk, OnOk};
ghost use Rattle.std.specs.List.{list_all, AllByRecursion};
ghost use Rattle.ir_tree.specs.Known.{ty_known, const_known, typed_known, global_known};
ghost use Rattle.ir_tree.specs.Shape.{typed_row};
ghost use Rattle.ir_tree.specs.ShapeOf.{typed_shape, global_shape};
ghost use Rattle.ir_layout.specs.Layout.{most_size, fields_end};
ghost use Rattle.ir_rules.specs.TypeRules.{IsProperGlobal};
ghost use Rattle.ir_model.specs.Values.{Cell};
ghost use Rattle.ir_program.specs.Bytes.{HasByte};
ghost use Rattle.ir_program.specs.Sizes.{layout_of};
ghost use Rattle.ir_program.specs.Constants.{const_cells, elements_cells, fields_cells, global_cells};
ghost use Rattle.program_tables.specs.Shapes.{pieces_cells};
ghost use Rattle.program_steps.specs.Steps.{names_of, types_of};
ghost use Rattle.program_consts.specs.Constants.{AreConstants, shape_of, ty_of, const_of};
ghost use Rattle.program_consts.specs.Fills.{Fills, AllFill};
ghost use Rattle.program_consts.specs.Pieces.{HasCells};

use crate::pieces::Pieces;
use crate::values::Constants;
use ir_layout::{field_end, field_start};
use ir_tree::module::GlobalItem;
use ir_tree::types::{Const, Ty, Typed};
use program_tables::GlobalBytes;
use std::alloc::{AllocError, Global};

impl Constants<'_> {
    /// Returns the bytes that a global has at the start. A run of zeros or of poison is one piece.
    pub fn bytes_of(&self, alloc: Global, global: &GlobalItem) -> Result<GlobalBytes, AllocError>
        requires constants { AreConstants self.now }
        requires names { global_known (length (names_of self.now.steps)) global.now ≡ true }
        requires proper { IsProperGlobal (types_of self.now.steps)
            (global_shape (names_of self.now.steps) global.now) }
        ensures cells { IfOk result (λ b. pieces_cells b.pieces.items ≡ global_cells
            (shape_of self.now) (global_shape (names_of self.now.steps) global.now)) }
        ensures bytes { IfOk result (λ b. AllByRecursion HasByte (pieces_cells b.pieces.items)) }
    {
        let mut out = Pieces::new(alloc);
        push_const(self, alloc, &mut out, &global.init, &global.ty)?;
        out.finish(alloc)
    }
}

/// Adds the bytes of a constant of a type.
#[cycle(contents)]
fn push_const(
    constants: &Constants,
    alloc: Global,
    out: &mut Pieces,
    c: &Const,
    ty: &Ty,
) -> Result<(), AllocError>
    requires constants { AreConstants constants.now }
    requires names { const_known (length (names_of constants.now.steps)) c.now ≡ true }
    requires types { ty_known (length (names_of constants.now.steps)) ty.now ≡ true }
    requires fills { Fills (types_of constants.now.steps)
        (ty_of constants.now ty.now) (const_of constants.now c.now) }
    ensures { (cells : List Cell) → HasCells cells out.old → OnOk result (HasCells (cells
        ++ const_cells (shape_of constants.now) (ty_of constants.now ty.now)
        (const_of constants.now c.now)) out.new) }
{
    match c {
        Const::Undef | Const::Poison => out.push_poison(alloc, constants.steps.layout_of(ty).size),
        Const::Zero => out.push_zeros(alloc, constants.steps.layout_of(ty).size),
        Const::Text(bytes) => out.push_bytes(bytes),
        Const::Array(row) => push_elements(constants, alloc, out, row),
        Const::Struct(row, packed) => {
            let end = push_fields(constants, alloc, out, *packed, row)?;
            out.push_poison(alloc, constants.steps.layout_of(ty).size - end)
        }
        Const::Int(_) | Const::Bool(_) | Const::Null | Const::Global(_) | Const::Gep(..) => {
            let value = constants.value_of(alloc, ty, c)?;
            out.push_value(alloc, ty, value)
        }
    }
}

/// Adds the bytes of elements in a row.
#[cycle(contents)]
fn push_elements(
    constants: &Constants,
    alloc: Global,
    out: &mut Pieces,
    row: &[Typed],
) -> Result<(), AllocError>
    requires constants { AreConstants constants.now }
    requires names { list_all (typed_known (length (names_of constants.now.steps))) row.now ≡ true }
    requires fill { AllFill (names_of constants.now.steps) (types_of constants.now.steps) row.now }
    ensures { (cells : List Cell) → HasCells cells out.old → OnOk result (HasCells (cells
        ++ elements_cells (shape_of constants.now)
        (typed_row (map (typed_shape (names_of constants.now.steps)) row.now))) out.new) }
{
    for element in row {
        push_const(constants, alloc, out, &element.value, &element.ty)?;
    }
    Ok(())
}

/// Adds the bytes of fields, with poison in the gaps before them, and returns where they end.
#[cycle(contents)]
fn push_fields(
    constants: &Constants,
    alloc: Global,
    out: &mut Pieces,
    packed: bool,
    row: &[Typed],
) -> Result<u64, AllocError>
    requires constants { AreConstants constants.now }
    requires names { list_all (typed_known (length (names_of constants.now.steps))) row.now ≡ true }
    requires fill { AllFill (names_of constants.now.steps) (types_of constants.now.steps) row.now }
    requires small { fields_end packed 0
        (map (λ v. layout_of (types_of constants.now.steps) (ty_of constants.now v.ty)) row.now)
        ≤ most_size }
    ensures cells { (cells : List Cell) → HasCells cells out.old → OnOk result (HasCells (cells
        ++ fields_cells (shape_of constants.now) packed 0
        (typed_row (map (typed_shape (names_of constants.now.steps)) row.now))) out.new) }
    ensures end { IfOk result (λ end. end ≡ fields_end packed 0
        (map (λ v. layout_of (types_of constants.now.steps) (ty_of constants.now v.ty)) row.now)) }
{
    let mut at: u128 = 0;
    for field in row {
        let layout = constants.steps.layout_of(&field.ty);
        out.push_poison(alloc, (field_start(packed, at, layout) - at) as u64)?;
        push_const(constants, alloc, out, &field.value, &field.ty)?;
        at = field_end(packed, at, layout);
    }
    Ok(at as u64)
}
