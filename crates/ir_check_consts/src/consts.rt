//! Constants against types.

ghost use Rattle.std.specs.Prelude.{◌≡◌, ◌↔◌, List, ℕ, true, length, map, IsTrue};
ghost use Rattle.std.specs.List.{list_all};
ghost use Rattle.ir_tree.specs.Known.{ty_known, const_known, typed_known};
ghost use Rattle.ir_tree.specs.Shape.{text, elements, fields, typed_row, ty_row};
ghost use Rattle.ir_tree.specs.ShapeOf.{module_shape, ty_shape, const_shape, typed_shape};
ghost use Rattle.ir_rules.specs.Constants.{IsAddress, HasConst, HaveElements, HaveFields, HasTyped, HasBase};
ghost use Rattle.ir_check_consts.specs.Tables.{AreTypeTables};

use crate::indices::are_steps;
use crate::opened::{array_of, structure_of};
use crate::tables::TypeTables;
use ir_same::same_ty;
use ir_tree::module::Module;
use ir_tree::types::{Const, Ty, Typed};
use ir_type_tests::{is_bit, is_integer_of, is_literal, is_pointer, is_sized};

/// Tells whether a constant is the address of a global, or what steps from there.
fn is_address(c: &Const) -> bool
    ensures { (names : List (List ℕ)) → IsTrue result ↔ IsAddress (const_shape names c.now) }
{
    matches!(c, Const::Global(_) | Const::Gep(_, _, _, _))
}

/// Tells whether bytes may be the content of a global of a type.
fn has_text(tables: &TypeTables, m: &Module, bytes: &[u8], ty: &Ty) -> bool
    requires tables { AreTypeTables m.now tables.now }
    requires known { ty_known (length m.now.names) ty.now ≡ true }
    ensures { IsTrue result ↔
        HasConst (module_shape m.now).types (text bytes.now) (ty_shape m.now.names ty.now) }
{
    match array_of(tables, m, ty) {
        Some((count, element)) => count == bytes.len() as u64 && is_integer_of(8, element),
        None => false,
    }
}

/// Tells whether a constant may be the content of a global of a type.
#[cycle(constants)]
pub fn has_const(tables: &TypeTables, m: &Module, c: &Const, ty: &Ty) -> bool
    requires tables { AreTypeTables m.now tables.now }
    requires const_names { const_known (length m.now.names) c.now ≡ true }
    requires ty_names { ty_known (length m.now.names) ty.now ≡ true }
    ensures { IsTrue result ↔ HasConst (module_shape m.now).types
        (const_shape m.now.names c.now) (ty_shape m.now.names ty.now) }
{
    match c {
        Const::Int(value) => is_literal(*value, ty),
        Const::Bool(_) => is_bit(ty),
        Const::Null | Const::Global(_) => is_pointer(ty),
        Const::Undef | Const::Poison | Const::Zero => is_sized(&tables.layouts, ty),
        Const::Text(bytes) => has_text(tables, m, bytes, ty),
        Const::Array(elements) => has_elements(tables, m, elements, ty),
        Const::Struct(fields, packed) => has_fields(tables, m, fields, *packed, ty),
        Const::Gep(_, inner, base, indices) => {
            is_pointer(ty) && has_base(tables, m, base) && are_steps(tables, m, inner, indices)
        }
    }
}

/// Tells whether a constant states a type, and has it.
#[cycle(constants)]
fn has_typed(tables: &TypeTables, m: &Module, typed: &Typed, ty: &Ty) -> bool
    requires tables { AreTypeTables m.now tables.now }
    requires const_names { typed_known (length m.now.names) typed.now ≡ true }
    requires ty_names { ty_known (length m.now.names) ty.now ≡ true }
    ensures { IsTrue result ↔ HasTyped (module_shape m.now).types
        (typed_shape m.now.names typed.now) (ty_shape m.now.names ty.now) }
{
    same_ty(&typed.ty, ty) && has_const(tables, m, &typed.value, ty)
}

/// Tells whether constants are so many values of a type.
#[cycle(constants)]
fn have_elements(tables: &TypeTables, m: &Module, row: &[Typed], count: u64, ty: &Ty) -> bool
    requires tables { AreTypeTables m.now tables.now }
    requires const_names { list_all (typed_known (length m.now.names)) row.now ≡ true }
    requires ty_names { ty_known (length m.now.names) ty.now ≡ true }
    ensures { IsTrue result ↔ HaveElements (module_shape m.now).types
        (typed_row (map (typed_shape m.now.names) row.now)) count (ty_shape m.now.names ty.now) }
{
    if row.len() as u64 != count {
        return false;
    }
    for element in row {
        if !has_typed(tables, m, element, ty) {
            return false;
        }
    }
    true
}

/// Tells whether an array of these elements may be the content of a global of a type.
#[cycle(constants)]
fn has_elements(tables: &TypeTables, m: &Module, row: &[Typed], ty: &Ty) -> bool
    requires tables { AreTypeTables m.now tables.now }
    requires const_names { list_all (typed_known (length m.now.names)) row.now ≡ true }
    requires ty_names { ty_known (length m.now.names) ty.now ≡ true }
    ensures { IsTrue result ↔ HasConst (module_shape m.now).types
        (elements (typed_row (map (typed_shape m.now.names) row.now)))
        (ty_shape m.now.names ty.now) }
{
    match array_of(tables, m, ty) {
        Some((count, element)) => have_elements(tables, m, row, count, element),
        None => false,
    }
}

/// Tells whether constants are a value for each field.
#[cycle(constants)]
fn have_fields(tables: &TypeTables, m: &Module, row: &[Typed], types: &[Ty]) -> bool
    requires tables { AreTypeTables m.now tables.now }
    requires const_names { list_all (typed_known (length m.now.names)) row.now ≡ true }
    requires ty_names { list_all (ty_known (length m.now.names)) types.now ≡ true }
    ensures { IsTrue result ↔ HaveFields (module_shape m.now).types
        (typed_row (map (typed_shape m.now.names) row.now))
        (ty_row (map (ty_shape m.now.names) types.now)) }
{
    if row.len() != types.len() {
        return false;
    }
    for (i, field) in row.iter().enumerate() {
        if !has_typed(tables, m, field, &types[i]) {
            return false;
        }
    }
    true
}

/// Tells whether a structure of these fields may be the content of a global of a type.
#[cycle(constants)]
fn has_fields(tables: &TypeTables, m: &Module, row: &[Typed], packed: bool, ty: &Ty) -> bool
    requires tables { AreTypeTables m.now tables.now }
    requires const_names { list_all (typed_known (length m.now.names)) row.now ≡ true }
    requires ty_names { ty_known (length m.now.names) ty.now ≡ true }
    ensures { IsTrue result ↔ HasConst (module_shape m.now).types
        (fields (typed_row (map (typed_shape m.now.names) row.now)) packed)
        (ty_shape m.now.names ty.now) }
{
    match structure_of(tables, m, ty) {
        Some((types, tight)) => packed == tight && have_fields(tables, m, row, types),
        None => false,
    }
}

/// Tells whether a constant is what a constant address may step from.
#[cycle(constants)]
fn has_base(tables: &TypeTables, m: &Module, base: &Typed) -> bool
    requires tables { AreTypeTables m.now tables.now }
    requires known { typed_known (length m.now.names) base.now ≡ true }
    ensures { IsTrue result ↔
        HasBase (module_shape m.now).types (typed_shape m.now.names base.now) }
{
    is_pointer(&base.ty) && is_address(&base.value) && has_const(tables, m, &base.value, &base.ty)
}
