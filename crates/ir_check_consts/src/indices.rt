//! The indices of an address.

ghost use Rattle.std.specs.Prelude.{◌≡◌, ◌↔◌, List, ℕ, ℤ, true, length, map, IsTrue};
ghost use Rattle.ir_tree.specs.Known.{ty_known};
ghost use Rattle.ir_tree.specs.Shape.{typed_row};
ghost use Rattle.ir_tree.specs.ShapeOf.{module_shape, ty_shape, const_shape, typed_shape};
ghost use Rattle.ir_layout.specs.Rules.{IsSized};
ghost use Rattle.ir_rules.specs.Constants.{IsIndex, AreNumbers, Walks, WalksBehind, const_number, row_numbers};
ghost use Rattle.ir_check_consts.specs.Tables.{AreTypeTables};

use crate::tables::TypeTables;
use ir_tree::module::Module;
use ir_tree::types::{Const, Ty, Typed};
use ir_type_tests::{is_literal, is_sized};

/// Returns the number that a constant is, if it is one.
fn const_number(c: &Const) -> Option<i128>
    ensures { (names : List (List ℕ)) → result ≡ const_number (const_shape names c.now) }
{
    match c {
        Const::Int(value) => Some(*value),
        _ => None,
    }
}

/// Tells whether a constant is a number of its integer type.
fn is_number(index: &Typed) -> bool
    ensures { (names : List (List ℕ)) → IsTrue result ↔
        ((value : ℤ) × IsIndex (ty_shape names index.now.ty)
        (const_shape names index.now.value) value) }
{
    match const_number(&index.value) {
        Some(value) => is_literal(value, &index.ty),
        None => false,
    }
}

/// Tells whether each index is a number of its integer type.
fn are_numbers(indices: &[Typed]) -> bool
    ensures { (names : List (List ℕ)) → IsTrue result ↔
        AreNumbers (typed_row (map (typed_shape names) indices.now)) }
{
    for index in indices {
        if !is_number(index) {
            return false;
        }
    }
    true
}

/// Tells whether indices lead from a type into another, one after the other.
fn walks(tables: &TypeTables, m: &Module, ty: &Ty, indices: &[Typed]) -> bool
    requires tables { AreTypeTables m.now tables.now }
    requires known { ty_known (length m.now.names) ty.now ≡ true }
    ensures { IsTrue result ↔ Walks (module_shape m.now).types (ty_shape m.now.names ty.now)
        (row_numbers (typed_row (map (typed_shape m.now.names) indices.now))) }
{
    let mut at = ty;
    for index in indices {
        match tables.openings.step(m, at, const_number(&index.value)) {
            Some(inner) => at = inner,
            None => return false,
        }
    }
    true
}

/// Tells whether the indices after the first one lead from a type into another.
fn walks_behind(tables: &TypeTables, m: &Module, ty: &Ty, indices: &[Typed]) -> bool
    requires tables { AreTypeTables m.now tables.now }
    requires known { ty_known (length m.now.names) ty.now ≡ true }
    ensures { IsTrue result ↔ WalksBehind (module_shape m.now).types (ty_shape m.now.names ty.now)
        (row_numbers (typed_row (map (typed_shape m.now.names) indices.now))) }
{
    if indices.is_empty() {
        return true;
    }
    walks(tables, m, ty, &indices[1..])
}

/// Tells whether a constant address may step through a type by these indices.
pub fn are_steps(tables: &TypeTables, m: &Module, ty: &Ty, indices: &[Typed]) -> bool
    requires tables { AreTypeTables m.now tables.now }
    requires known { ty_known (length m.now.names) ty.now ≡ true }
    ensures { let row = typed_row (map (typed_shape m.now.names) indices.now) in
        IsTrue result ↔ (IsSized (module_shape m.now).types (ty_shape m.now.names ty.now)
        × AreNumbers row
        × WalksBehind (module_shape m.now).types (ty_shape m.now.names ty.now) (row_numbers row)) }
{
    is_sized(&tables.layouts, ty) && are_numbers(indices) && walks_behind(tables, m, ty, indices)
}
