//! Where the types of a module fail first.

ghost use Rattle.std.specs.Prelude.{◌≡◌, true, IfOk, IfNone};
ghost use Rattle.ir_tree.specs.Known.{module_known};
ghost use Rattle.ir_tree.specs.ShapeOf.{module_shape};
ghost use Rattle.ir_names.specs.Scopes.{AreScopesOf};
ghost use Rattle.ir_rules.specs.TypeRules.{HasTypes};
ghost use Rattle.ir_rules.specs.Faults.{IsFirst, TypeFault};
ghost use Rattle.ir_check_consts.specs.Tables.{AreTypeTables};

use crate::instructions::first_of_instructions;
use crate::items::{first_of_declares, first_of_globals, first_of_heads, first_of_types};
use ir_check_consts::TypeTables;
use ir_names::Scopes;
use ir_repeats::first_of;
use ir_tree::parsed::Parsed;
use std::alloc::{AllocError, Global};

/// Returns the first offset at which a rule of types fails.
///
/// The time is that of sorting the cases of each `switch`, and else linear in the module.
pub fn first_type_fault(
    alloc: Global,
    p: &Parsed,
    scopes: &Scopes,
) -> Result<Option<usize>, AllocError>
    requires known { module_known p.now.«module» ≡ true }
    requires scopes { AreScopesOf p.now.«module» scopes.now }
    ensures first { IfOk result (IsFirst (TypeFault p.now)) }
    ensures none { IfOk result (λ found. IfNone found (HasTypes (module_shape p.now.«module»))) }
{
    let tables = TypeTables::of_module(alloc, &p.module)?;
    let of_instructions = first_of_instructions(alloc, p, &tables, scopes)?;
    let of_contents = first_of(first_of_types(p, &tables), first_of_globals(p, &tables));
    let of_heads = first_of(first_of_declares(p), first_of_heads(p));
    Ok(first_of(first_of(of_contents, of_heads), of_instructions))
}
