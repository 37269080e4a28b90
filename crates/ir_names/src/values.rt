//! The values of a function, in order.

ghost use Rattle.std.specs.Prelude.{◌≡◌, ◌++◌, List, ℕ, true, map, OnOk, IfOk};
ghost use Rattle.std.specs.List.{list_all};
ghost use Rattle.ir_tree.specs.Known.{param_known, inst_known, block_known, function_known};
ghost use Rattle.ir_tree.specs.ShapeOf.{param_shape, inst_shape, block_shape, function_shape};
ghost use Rattle.ir_rules.specs.Values.{params_from, results_from, all_results_from, values, gives_value};
ghost use Rattle.ir_names.specs.Results.{value_shape, value_known};

use crate::results::result_ty;
use ir_rules::Site;
use ir_tree::module::{Block, Function, Inst, Param};
use ir_tree::names::NameId;
use std::alloc::{AllocError, Global};

/// A value: its name if it has one, and what gives it.
#[derive(Clone, Copy, Debug)]
pub struct Value {
    /// Its name.
    pub name: Option<NameId>,
    /// What gives it.
    pub site: Site,
}

/// Appends the parameters.
fn push_params(params: &[Param], to: &mut Vec<Value>) -> Result<(), AllocError>
    ensures shape { OnOk result ((names : List (List ℕ)) → map (value_shape names) to.new.items
        ≡ map (value_shape names) to.old.items
        ++ params_from 0 (map (param_shape names) params.now)) }
    ensures known { OnOk result ((count : ℕ) → list_all (value_known count) to.old.items ≡ true →
        list_all (param_known count) params.now ≡ true →
        list_all (value_known count) to.new.items ≡ true) }
{
    for (k, param) in params.iter().enumerate() {
        to.push(Value {
            name: param.name,
            site: Site::Param(k),
        })?;
    }
    Ok(())
}

/// Tells whether an instruction gives a value.
fn gives_value(inst: &Inst) -> bool
    ensures { (names : List (List ℕ)) → result ≡ gives_value (inst_shape names inst.now) }
{
    inst.result.is_some() || !result_ty(&inst.body).is_void()
}

/// Appends what the instructions of the block of a number give.
fn push_results(block: usize, insts: &[Inst], to: &mut Vec<Value>) -> Result<(), AllocError>
    ensures shape { OnOk result ((names : List (List ℕ)) → map (value_shape names) to.new.items
        ≡ map (value_shape names) to.old.items
        ++ results_from block 0 (map (inst_shape names) insts.now)) }
    ensures known { OnOk result ((count : ℕ) → list_all (value_known count) to.old.items ≡ true →
        list_all (inst_known count) insts.now ≡ true →
        list_all (value_known count) to.new.items ≡ true) }
{
    for (k, inst) in insts.iter().enumerate() {
        if gives_value(inst) {
            to.push(Value {
                name: inst.result,
                site: Site::Inst(block, k),
            })?;
        }
    }
    Ok(())
}

/// Appends what the instructions of blocks give.
fn push_all_results(blocks: &[Block], to: &mut Vec<Value>) -> Result<(), AllocError>
    ensures shape { OnOk result ((names : List (List ℕ)) → map (value_shape names) to.new.items
        ≡ map (value_shape names) to.old.items
        ++ all_results_from 0 (map (block_shape names) blocks.now)) }
    ensures known { OnOk result ((count : ℕ) → list_all (value_known count) to.old.items ≡ true →
        list_all (block_known count) blocks.now ≡ true →
        list_all (value_known count) to.new.items ≡ true) }
{
    for (k, block) in blocks.iter().enumerate() {
        push_results(k, &block.insts, to)?;
    }
    Ok(())
}

/// Returns the values of a function: its parameters, then what its instructions give, in the order of the
/// text.
pub fn values_of(alloc: Global, f: &Function) -> Result<Vec<Value>, AllocError>
    ensures shape { IfOk result (λ vs. (names : List (List ℕ)) →
        map (value_shape names) vs.items ≡ values (function_shape names f.now)) }
    ensures known { IfOk result (λ vs. (count : ℕ) → function_known count f.now ≡ true →
        list_all (value_known count) vs.items ≡ true) }
{
    let mut to = Vec::new(alloc);
    push_params(&f.params, &mut to)?;
    push_all_results(&f.blocks, &mut to)?;
    Ok(to)
}
