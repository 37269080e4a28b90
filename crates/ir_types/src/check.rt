//! The check of names and types.

ghost use Rattle.std.specs.Prelude.{◌≡◌, true};
ghost use Rattle.ir_tree.specs.Known.{module_known};
ghost use Rattle.ir_names.specs.Scopes.{AreScopesOf};
ghost use Rattle.ir_types.specs.Answers.{IsChecked};

use crate::error::TypeError;
use crate::names::first_name_fault;
use crate::types::first_type_fault;
use ir_names::Scopes;
use ir_tree::parsed::Parsed;
use std::alloc::Global;

/// Checks the names and the types of a module that was read.
///
/// # Errors
///
/// `Name` where a rule of names fails, with the first offset at which one does; else `Typing` where a rule
/// of types fails, with the first offset at which one does; `OutOfMemory`.
pub fn check_types(alloc: Global, p: &Parsed) -> Result<(), TypeError>
    requires known { module_known p.now.«module» ≡ true }
    ensures { IsChecked p.now result }
{
    let scopes = Scopes::of_module(alloc, &p.module)?;
    check_types_with(alloc, p, &scopes)
}

/// Checks the same by the tables of its names, where these are made already.
///
/// # Errors
///
/// Those of [`check_types`].
pub fn check_types_with(alloc: Global, p: &Parsed, scopes: &Scopes) -> Result<(), TypeError>
    requires known { module_known p.now.«module» ≡ true }
    requires scopes { AreScopesOf p.now.«module» scopes.now }
    ensures { IsChecked p.now result }
{
    if let Some(at) = first_name_fault(alloc, p, scopes)? {
        return Err(TypeError::Name { at });
    }
    match first_type_fault(alloc, p, scopes)? {
        Some(at) => Err(TypeError::Typing { at }),
        None => Ok(()),
    }
}
