//! The check of a module.

ghost use Rattle.std.specs.Prelude.{◌≡◌, true, IfOk, IfErr};
ghost use Rattle.ir_tree.specs.Known.{module_known};
ghost use Rattle.ir_tree.specs.ShapeOf.{module_shape};
ghost use Rattle.ir_names.specs.Scopes.{AreScopesOf};
ghost use Rattle.ir_rules.specs.NameRules.{HasNames};
ghost use Rattle.ir_rules.specs.TypeRules.{HasTypes};
ghost use Rattle.ir_proper.specs.FlowRules.{HasFlow};
ghost use Rattle.ir_proper.specs.Proper.{IsProper};
ghost use Rattle.ir_proper.specs.Limits.{IsWithin};
ghost use Rattle.ir_forms.specs.Modules.{HasForm};
ghost use Rattle.ir_check.specs.Answers.{IsRefused, IsChecked};

use crate::checked::Checked;
use crate::error::{CheckError, refusal_of_types};
use crate::main_function::has_main;
use ir_flow::first_flow_fault;
use ir_layout::Layouts;
use ir_limits::first_passed;
use ir_names::Scopes;
use ir_tree::module::Module;
use ir_tree::parsed::Parsed;
use ir_types::check_types_with;
use std::alloc::Global;

/// Checks the names, the types and the flow of a module.
fn check_rules(alloc: Global, p: &Parsed, scopes: &Scopes) -> Result<(), CheckError>
    requires known { module_known p.now.«module» ≡ true }
    requires scopes { AreScopesOf p.now.«module» scopes.now }
    ensures names { IfOk result (λ _. HasNames (module_shape p.now.«module»)) }
    ensures types { IfOk result (λ _. HasTypes (module_shape p.now.«module»)) }
    ensures flow { IfOk result (λ _. HasFlow (module_shape p.now.«module»)) }
    ensures refused { IfErr result (IsRefused p.now) }
{
    if let Err(error) = check_types_with(alloc, p, scopes) {
        return Err(refusal_of_types(error));
    }
    match first_flow_fault(alloc, p, scopes)? {
        Some(at) => Err(CheckError::Flow { at }),
        None => Ok(()),
    }
}

/// Checks the rules of a module, and that it defines `main`.
#[tactic(auto, using(crate::proofs::Mains::proper_with_main, crate::proofs::Mains::refused_without_main))]
fn check_proper(alloc: Global, p: &Parsed, scopes: &Scopes) -> Result<(), CheckError>
    requires known { module_known p.now.«module» ≡ true }
    requires scopes { AreScopesOf p.now.«module» scopes.now }
    ensures proper { IfOk result (λ _. IsProper (module_shape p.now.«module»)) }
    ensures refused { IfErr result (IsRefused p.now) }
{
    check_rules(alloc, p, scopes)?;
    if has_main(&p.module) {
        Ok(())
    } else {
        Err(CheckError::NoMain)
    }
}

/// Checks that a proper module is within the limits.
fn check_limits(alloc: Global, p: &Parsed) -> Result<(), CheckError>
    requires known { module_known p.now.«module» ≡ true }
    requires proper { IsProper (module_shape p.now.«module») }
    ensures within { IfOk result (λ _. IsWithin (module_shape p.now.«module»)) }
    ensures refused { IfErr result (IsRefused p.now) }
{
    let layouts = Layouts::of_module(alloc, &p.module)?;
    match first_passed(&p.module, &layouts) {
        Some(passed) => Err(CheckError::Limit {
            which: passed.which,
            found: passed.found,
            most: passed.most,
        }),
        None => Ok(()),
    }
}

/// Checks a module that was read: that it is proper and within the limits.
///
/// It has the form that the grammar gives each module that is read. The time is that of sorting its names, and of
/// one search through a function where its flow isn't proper.
///
/// # Errors
///
/// The first kind of rule that fails, in the order of [`CheckError`], with the first offset or the first count at
/// which it does; `OutOfMemory`. The module is dropped.
#[tactic(auto, using(crate::proofs::Mains::all_known))]
pub fn check(alloc: Global, p: Parsed) -> Result<Checked, CheckError>
    requires known { module_known p.«module» ≡ true }
    requires form { HasForm (module_shape p.«module») }
    ensures checked { IfOk result IsChecked }
    ensures same { IfOk result (λ checked. checked.parsed ≡ p) }
    ensures refused { IfErr result (IsRefused p) }
{
    let scopes = Scopes::of_module(alloc, &p.module)?;
    check_proper(alloc, &p, &scopes)?;
    check_limits(alloc, &p)?;
    Ok(Checked { parsed: p, scopes })
}
