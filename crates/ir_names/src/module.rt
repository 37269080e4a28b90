//! What the names of a module stand for outside of its functions.

ghost use Rattle.std.specs.Prelude.{◌≡◌, true, length, map, Some, IfOk, is_some, codes};
ghost use Rattle.std.specs.Str.{bytes_eq};
ghost use Rattle.ir_tree.specs.NameTable.{text_of, IsKnown};
ghost use Rattle.ir_tree.specs.Known.{module_known};
ghost use Rattle.ir_tree.specs.ShapeOf.{module_shape};
ghost use Rattle.ir_tree.specs.declared.module.Module.{Module};
ghost use Rattle.ir_layout.specs.Rules.{named_ty};
ghost use Rattle.ir_rules.specs.Things.{global_of, callee_of, is_outside_name};
ghost use Rattle.ir_names.specs.Numbers.{defined_id, declared_id};
ghost use Rattle.ir_names.specs.Tables.{entry, AreNamesOf};

use crate::firsts::first_of_each;
use ir_rules::Callee;
use ir_tree::module::{Declare, Function, GlobalItem, Module, NamedTy};
use ir_tree::names::{NameId, Names};
use std::alloc::{AllocError, Global};
use std::marker::Model;

/// What the names of a module stand for outside of its functions.
#[derive(Drop)]
pub struct ModuleNames {
    types: Vec<Option<usize>>,
    globals: Vec<Option<usize>>,
    defined: Vec<Option<usize>>,
    declared: Vec<Option<usize>>,
}

impl Model for ModuleNames {
    ghost use Rattle.ir_names.specs.Tables.{ModuleTable};

    ghost Value = { ModuleTable };

    ghost view = { λ n. record {
      types = n.types.items;
      globals = n.globals.items;
      defined = n.defined.items;
      declared = n.declared.items;
    } };
}

impl ModuleNames {
    /// Enters the names of a module. The time is linear in the module's items and names.
    pub fn of_module(alloc: Global, m: &Module) -> Result<ModuleNames, AllocError>
        requires { module_known m.now ≡ true }
        ensures { IfOk result (λ names. AreNamesOf m.now names) }
    {
        let count = m.names.len();
        let types = type_ids(alloc, &m.types)?;
        let globals = global_ids(alloc, &m.globals)?;
        let defined = defined_ids(alloc, &m.names, &m.functions)?;
        let declared = declared_ids(alloc, &m.names, &m.declares)?;
        Ok(ModuleNames {
            types: first_of_each(alloc, &types, count)?,
            globals: first_of_each(alloc, &globals, count)?,
            defined: first_of_each(alloc, &defined, count)?,
            declared: first_of_each(alloc, &declared, count)?,
        })
    }

    /// Tells whether a name is that of a named type.
    pub fn is_type(&self, id: NameId) -> bool
        ensures { (m : Module) → AreNamesOf m self.now → IsKnown m.names id.0 →
            result ≡ is_some (named_ty (module_shape m).types (text_of m.names id.0)) }
    {
        entry_at(&self.types, id).is_some()
    }

    /// Returns which global a name stands for.
    pub fn global_of(&self, id: NameId) -> Option<usize>
        ensures { (m : Module) → AreNamesOf m self.now → IsKnown m.names id.0 →
            result ≡ global_of (module_shape m) (text_of m.names id.0) }
    {
        entry_at(&self.globals, id)
    }

    /// Returns which function a name may call.
    pub fn callee_of(&self, id: NameId) -> Option<Callee>
        ensures { (m : Module) → AreNamesOf m self.now → IsKnown m.names id.0 →
            result ≡ callee_of (module_shape m) (text_of m.names id.0) }
    {
        match entry_at(&self.defined, id) {
            Some(k) => Some(Callee::Defined(k)),
            None => match entry_at(&self.declared, id) {
                Some(k) => Some(Callee::Declared(k)),
                None => None,
            },
        }
    }
}

/// Returns what a list has for a name.
fn entry_at(firsts: &[Option<usize>], id: NameId) -> Option<usize>
    ensures { result ≡ entry firsts.now id.0 }
{
    match firsts.get(id.0 as usize) {
        Some(first) => *first,
        None => None,
    }
}

/// Tells whether the name of a number is this one. A number that no name has stands for the empty name.
fn is_named(names: &Names, id: NameId, name: &[u8]) -> bool
    ensures { result ≡ bytes_eq (text_of names.now id.0) name.now }
{
    match names.text(id) {
        Some(text) => text == name,
        None => name.is_empty(),
    }
}

/// Returns the names of named types.
fn type_ids(alloc: Global, types: &[NamedTy]) -> Result<Vec<Option<NameId>>, AllocError>
    ensures { IfOk result (λ ids. ids.items ≡ map (λ t. Some t.name) types.now) }
{
    types.iter().map(|t| Some(t.name)).collect(alloc)
}

/// Returns the names of globals.
fn global_ids(alloc: Global, globals: &[GlobalItem]) -> Result<Vec<Option<NameId>>, AllocError>
    ensures { IfOk result (λ ids. ids.items ≡ map (λ g. Some g.name) globals.now) }
{
    globals.iter().map(|g| Some(g.name)).collect(alloc)
}

/// Returns the names of defined functions, without those that may not be called.
fn defined_ids(
    alloc: Global,
    names: &Names,
    functions: &[Function],
) -> Result<Vec<Option<NameId>>, AllocError>
    ensures { IfOk result (λ ids. ids.items ≡ map (defined_id names.now) functions.now) }
{
    let mut ids = Vec::new(alloc);
    for f in functions {
        let is_main = is_named(names, f.name, b"main");
        ids.push(if is_main { None } else { Some(f.name) })?;
    }
    Ok(ids)
}

/// Returns the names of declared functions, without those that may not be called.
fn declared_ids(
    alloc: Global,
    names: &Names,
    declares: &[Declare],
) -> Result<Vec<Option<NameId>>, AllocError>
    ensures { IfOk result (λ ids. ids.items ≡ map (declared_id names.now) declares.now) }
{
    let mut ids = Vec::new(alloc);
    for d in declares {
        let is_outside = is_named(names, d.name, b"putchar") || is_named(names, d.name, b"getchar");
        ids.push(if is_outside { Some(d.name) } else { None })?;
    }
    Ok(ids)
}
