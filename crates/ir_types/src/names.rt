//! Where the names of a module fail first.

ghost use Rattle.std.specs.Prelude.{◌≡◌, true, IfOk, IfNone};
ghost use Rattle.ir_tree.specs.Known.{module_known};
ghost use Rattle.ir_tree.specs.ShapeOf.{module_shape};
ghost use Rattle.ir_names.specs.Scopes.{AreScopesOf};
ghost use Rattle.ir_rules.specs.NameRules.{HasNames};
ghost use Rattle.ir_rules.specs.Faults.{IsFirst, NameFault};

use ir_missing::first_missing;
use ir_names::Scopes;
use ir_repeats::{first_item_clash, first_of, first_repeat};
use ir_tree::parsed::Parsed;
use std::alloc::{AllocError, Global};

/// Returns the first offset at which a rule of names fails.
///
/// The time is that of sorting the names that each function gives, and else linear in the module.
pub fn first_name_fault(
    alloc: Global,
    p: &Parsed,
    scopes: &Scopes,
) -> Result<Option<usize>, AllocError>
    requires known { module_known p.now.«module» ≡ true }
    requires scopes { AreScopesOf p.now.«module» scopes.now }
    ensures first { IfOk result (IsFirst (NameFault p.now)) }
    ensures none { IfOk result (λ found. IfNone found (HasNames (module_shape p.now.«module»))) }
{
    let missing = first_missing(p, scopes);
    let repeat = first_repeat(alloc, p)?;
    let clash = first_item_clash(alloc, p)?;
    Ok(first_of(missing, first_of(repeat, clash)))
}
