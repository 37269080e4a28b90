//! The first items whose types aren't proper.

ghost use Rattle.std.specs.Prelude.{◌≡◌, ◌↔◌, true, length, IsTrue};
ghost use Rattle.ir_tree.specs.Known.{module_known, global_known};
ghost use Rattle.ir_tree.specs.ShapeOf.{module_shape, global_shape};
ghost use Rattle.ir_rules.specs.TypeRules.{IsProperGlobal};
ghost use Rattle.ir_check_consts.specs.Tables.{AreTypeTables};
ghost use Rattle.ir_types.specs.Looks.{IsTypePlace, IsGlobalPlace, IsDeclarePlace, IsHeadPlace, HasLooked};

use crate::declares::{is_proper_declare, is_proper_head};
use crate::faults::fault_at;
use ir_check_consts::{TypeTables, has_const};
use ir_repeats::first_of;
use ir_tree::module::{GlobalItem, Module};
use ir_tree::parsed::Parsed;
use ir_type_tests::is_sized;

/// Tells whether the type of a global has a size, and its content that type.
fn is_proper_global(tables: &TypeTables, m: &Module, g: &GlobalItem) -> bool
    requires names { module_known m.now ≡ true }
    requires tables { AreTypeTables m.now tables.now }
    requires known { global_known (length m.now.names) g.now ≡ true }
    ensures { IsTrue result ↔
        IsProperGlobal (module_shape m.now).types (global_shape m.now.names g.now) }
{
    is_sized(&tables.layouts, &g.ty) && has_const(tables, m, &g.init, &g.ty)
}

/// Returns the first offset of a named type that has no size.
pub fn first_of_types(p: &Parsed, tables: &TypeTables) -> Option<usize>
    requires known { module_known p.now.«module» ≡ true }
    requires tables { AreTypeTables p.now.«module» tables.now }
    ensures { HasLooked p.now IsTypePlace result }
{
    let mut found = None;
    for at in 0..p.module.types.len() {
        let is_proper = is_sized(&tables.layouts, &p.module.types[at].ty);
        found = first_of(found, fault_at(is_proper, p.spots.types[at]));
    }
    found
}

/// Returns the first offset of a global whose types aren't proper.
pub fn first_of_globals(p: &Parsed, tables: &TypeTables) -> Option<usize>
    requires known { module_known p.now.«module» ≡ true }
    requires tables { AreTypeTables p.now.«module» tables.now }
    ensures { HasLooked p.now IsGlobalPlace result }
{
    let mut found = None;
    for at in 0..p.module.globals.len() {
        let is_proper = is_proper_global(tables, &p.module, &p.module.globals[at]);
        found = first_of(found, fault_at(is_proper, p.spots.globals[at]));
    }
    found
}

/// Returns the first offset of a declared function whose types aren't proper.
pub fn first_of_declares(p: &Parsed) -> Option<usize>
    ensures { HasLooked p.now IsDeclarePlace result }
{
    let mut found = None;
    for at in 0..p.module.declares.len() {
        let is_proper = is_proper_declare(&p.module.names, &p.module.declares[at]);
        found = first_of(found, fault_at(is_proper, p.spots.declares[at]));
    }
    found
}

/// Returns the first offset of a function in whose head the types aren't proper.
pub fn first_of_heads(p: &Parsed) -> Option<usize>
    ensures { HasLooked p.now IsHeadPlace result }
{
    let mut found = None;
    for at in 0..p.module.functions.len() {
        let is_proper = is_proper_head(&p.module.functions[at]);
        found = first_of(found, fault_at(is_proper, p.spots.functions[at]));
    }
    found
}
