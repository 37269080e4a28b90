//! What all names of a module stand for, outside of its functions and in each.

ghost use Rattle.std.specs.Prelude.{◌≡◌, true, IfOk};
ghost use Rattle.std.specs.List.{IsDistinct};
ghost use Rattle.std.specs.Str.{bytes_eq};
ghost use Rattle.ir_tree.specs.Known.{module_known};
ghost use Rattle.ir_names.specs.Scopes.{AreNamesInAll, AreScopesOf};

use crate::function::FunctionNames;
use crate::module::ModuleNames;
use ir_tree::module::Module;
use std::alloc::{AllocError, Global};

/// What all names of a module stand for, outside of its functions and in each.
#[derive(Drop)]
pub struct Scopes {
    /// Outside of its functions.
    pub module: ModuleNames,
    /// In each function, by number.
    pub functions: Vec<FunctionNames>,
}

impl Scopes {
    /// Enters the names of a module and of its functions.
    pub fn of_module(alloc: Global, m: &Module) -> Result<Scopes, AllocError>
        requires { module_known m.now ≡ true }
        ensures { IfOk result (λ scopes. AreScopesOf m.now scopes) }
    {
        Ok(Scopes {
            module: ModuleNames::of_module(alloc, m)?,
            functions: names_of_functions(alloc, m)?,
        })
    }
}

/// Enters the names of the functions of a module.
fn names_of_functions(alloc: Global, m: &Module) -> Result<Vec<FunctionNames>, AllocError>
    requires known { module_known m.now ≡ true }
    requires distinct { IsDistinct bytes_eq m.now.names }
    ensures { IfOk result (λ tables. AreNamesInAll m.now tables.items) }
{
    let mut tables = Vec::new(alloc);
    for f in &m.functions {
        tables.push(FunctionNames::of_function(alloc, f)?)?;
    }
    Ok(tables)
}
