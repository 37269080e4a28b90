//! The tables of a module's types.

ghost use Rattle.std.specs.Prelude.{◌≡◌, true, IfOk};
ghost use Rattle.ir_tree.specs.Known.{module_known};
ghost use Rattle.ir_check_consts.specs.Tables.{AreTypeTables};

use ir_layout::Layouts;
use ir_openings::Openings;
use ir_tree::module::Module;
use std::alloc::{AllocError, Global};

/// The tables of a module's types.
#[derive(Drop)]
pub struct TypeTables {
    /// The layouts of its types.
    pub layouts: Layouts,
    /// What its names open to.
    pub openings: Openings,
}

impl TypeTables {
    /// Makes the tables of a module's types. The time is linear in the module's types and names.
    pub fn of_module(alloc: Global, m: &Module) -> Result<TypeTables, AllocError>
        requires known { module_known m.now ≡ true }
        ensures tables { IfOk result (λ tables. AreTypeTables m.now tables) }
    {
        Ok(TypeTables {
            layouts: Layouts::of_module(alloc, m)?,
            openings: Openings::of_module(alloc, m)?,
        })
    }
}
