//! The items of a module that give names.

ghost use Rattle.std.specs.Prelude.{◌≡◌, ◌++◌, IfOk, OnOk};
ghost use Rattle.ir_repeats.specs.Entries.{type_entries, global_entries, declare_entries, function_entries, symbol_entries};

use ir_tree::names::NameId;
use ir_tree::parsed::Parsed;
use std::alloc::{AllocError, Global};

/// An item that gives a name, by its number.
#[derive(Clone, Copy, Debug, PartialEq, Eq)]
pub enum Item {
    /// A named type.
    Type(usize),
    /// A global.
    Global(usize),
    /// A declared function.
    Declare(usize),
    /// A defined function.
    Function(usize),
}

/// An item with its name and its offset in the text.
#[derive(Clone, Copy, Debug, PartialEq, Eq)]
pub struct Entry {
    /// The name.
    pub name: NameId,
    /// The item.
    pub item: Item,
    /// The offset of its first token.
    pub spot: usize,
}

/// Appends the entries of the named types.
fn push_types(p: &Parsed, entries: &mut Vec<Entry>) -> Result<(), AllocError>
    ensures { OnOk result (entries.new.items ≡ entries.old.items
        ++ type_entries p.now) }
{
    for at in 0..p.module.types.len() {
        entries.push(Entry {
            name: p.module.types[at].name,
            item: Item::Type(at),
            spot: p.spots.types[at],
        })?;
    }
    Ok(())
}

/// Appends the entries of the globals.
fn push_globals(p: &Parsed, entries: &mut Vec<Entry>) -> Result<(), AllocError>
    ensures { OnOk result (entries.new.items ≡ entries.old.items
        ++ global_entries p.now) }
{
    for at in 0..p.module.globals.len() {
        entries.push(Entry {
            name: p.module.globals[at].name,
            item: Item::Global(at),
            spot: p.spots.globals[at],
        })?;
    }
    Ok(())
}

/// Appends the entries of the declared functions.
fn push_declares(p: &Parsed, entries: &mut Vec<Entry>) -> Result<(), AllocError>
    ensures { OnOk result (entries.new.items ≡ entries.old.items
        ++ declare_entries p.now) }
{
    for at in 0..p.module.declares.len() {
        entries.push(Entry {
            name: p.module.declares[at].name,
            item: Item::Declare(at),
            spot: p.spots.declares[at],
        })?;
    }
    Ok(())
}

/// Appends the entries of the defined functions.
fn push_functions(p: &Parsed, entries: &mut Vec<Entry>) -> Result<(), AllocError>
    ensures { OnOk result (entries.new.items ≡ entries.old.items
        ++ function_entries p.now) }
{
    for at in 0..p.module.functions.len() {
        entries.push(Entry {
            name: p.module.functions[at].name,
            item: Item::Function(at),
            spot: p.spots.functions[at],
        })?;
    }
    Ok(())
}

/// Returns the entries of the named types.
pub fn type_entries(alloc: Global, p: &Parsed) -> Result<Vec<Entry>, AllocError>
    ensures { IfOk result (λ entries. entries.items ≡ type_entries p.now) }
{
    let mut entries = Vec::new(alloc);
    push_types(p, &mut entries)?;
    Ok(entries)
}

/// Returns the entries of the globals and the functions.
pub fn symbol_entries(alloc: Global, p: &Parsed) -> Result<Vec<Entry>, AllocError>
    ensures { IfOk result (λ entries. entries.items ≡ symbol_entries p.now) }
{
    let mut entries = Vec::new(alloc);
    push_globals(p, &mut entries)?;
    push_declares(p, &mut entries)?;
    push_functions(p, &mut entries)?;
    Ok(entries)
}
