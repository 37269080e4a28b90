//! The first instruction at which the flow of a module isn't proper.

ghost use Rattle.std.specs.Prelude.{◌≡◌, ◌↔◌, ◌+◌, ◌<◌, true, length, IsTrue, IfOk, IfNone};
ghost use Rattle.ir_tree.specs.Known.{module_known};
ghost use Rattle.ir_tree.specs.ShapeOf.{module_shape};
ghost use Rattle.ir_names.specs.Scopes.{AreScopesOf};
ghost use Rattle.ir_rules.specs.Faults.{IsFirst};
ghost use Rattle.ir_proper.specs.FlowRules.{HasFlow, FlowFault};
ghost use Rattle.ir_flow.specs.Around.{predecessors_in, IsAround, IsAroundIn};
ghost use Rattle.ir_flow.specs.Places.{ArePlaces};
ghost use Rattle.ir_flow.specs.Looks.{IsFoundBy, IsInstOf, AreBefore, HasLooked};

use crate::around::Around;
use crate::edges::Edges;
use crate::places::places_of;
use ir_names::Scopes;
use ir_tree::parsed::Parsed;
use std::alloc::{AllocError, Global};
use std::collections::BTreeMap;

/// The numbers of an instruction.
#[derive(Clone, Copy)]
struct Numbers {
    /// That of its function.
    function: usize,
    /// That of its block in the function.
    block: usize,
    /// Its own in the block.
    index: usize,
}

/// Tells whether an offset was found that isn't after this one.
fn is_found_by(found: Option<usize>, spot: usize) -> bool
    ensures { IsTrue result ↔ IsFoundBy found spot }
{
    match found {
        Some(least) => least <= spot,
        None => false,
    }
}

/// Returns the offset that was found, or else that of an instruction at which the flow isn't proper.
fn look_at(
    alloc: Global,
    p: &Parsed,
    around: &Around,
    at: Numbers,
    predecessors: &BTreeMap<usize, usize>,
    found: Option<usize>,
) -> Result<Option<usize>, AllocError>
    requires known { module_known p.now.«module» ≡ true }
    requires around { IsAround around.now }
    requires here { IsAroundIn p.now at.function around.now }
    requires there { IsInstOf around.now.function.now at.block at.index }
    requires keys { ArePlaces (predecessors_in around.now at.block) predecessors.now }
    requires looked { HasLooked p.now (AreBefore at.function at.block at.index) found }
    ensures { IfOk result
        (HasLooked p.now (AreBefore at.function at.block (at.index + 1))) }
{
    let spot = p.spots.insts[at.function][at.block][at.index];
    if is_found_by(found, spot) {
        return Ok(found);
    }
    let inst = &around.function.blocks[at.block].insts[at.index];
    let is_proper = around.has_proper_flow(alloc, inst, at.block, at.index, predecessors)?;
    Ok(if is_proper { found } else { Some(spot) })
}

/// Looks at the instructions of a block.
fn look_at_block(
    alloc: Global,
    p: &Parsed,
    around: &Around,
    function: usize,
    block: usize,
    found: Option<usize>,
) -> Result<Option<usize>, AllocError>
    requires known { module_known p.now.«module» ≡ true }
    requires around { IsAround around.now }
    requires here { IsAroundIn p.now function around.now }
    requires block { block < length around.now.function.now.blocks.items }
    requires looked { HasLooked p.now (AreBefore function block 0) found }
    ensures { IfOk result (HasLooked p.now (AreBefore function (block + 1) 0)) }
{
    let predecessors = places_of(alloc, &around.edges.predecessors[block])?;
    let mut found = found;
    for index in 0..around.function.blocks[block].insts.len() {
        let at = Numbers {
            function,
            block,
            index,
        };
        found = look_at(alloc, p, around, at, &predecessors, found)?;
    }
    Ok(found)
}

/// Looks at the instructions of a function.
fn look_at_function(
    alloc: Global,
    p: &Parsed,
    around: &Around,
    function: usize,
    found: Option<usize>,
) -> Result<Option<usize>, AllocError>
    requires known { module_known p.now.«module» ≡ true }
    requires around { IsAround around.now }
    requires here { IsAroundIn p.now function around.now }
    requires looked { HasLooked p.now (AreBefore function 0 0) found }
    ensures { IfOk result (HasLooked p.now (AreBefore (function + 1) 0 0)) }
{
    let mut found = found;
    for block in 0..around.function.blocks.len() {
        found = look_at_block(alloc, p, around, function, block, found)?;
    }
    Ok(found)
}

/// Returns the first offset of an instruction at which a rule of the flow fails.
///
/// The time is that of sorting the module's names and edges, and where a value isn't there once more that of a search
/// through its function.
pub fn first_flow_fault(
    alloc: Global,
    p: &Parsed,
    scopes: &Scopes,
) -> Result<Option<usize>, AllocError>
    requires known { module_known p.now.«module» ≡ true }
    requires scopes { AreScopesOf p.now.«module» scopes.now }
    ensures first { IfOk result (IsFirst (FlowFault p.now)) }
    ensures none { IfOk result (λ found. IfNone found (HasFlow (module_shape p.now.«module»))) }
{
    let mut found = None;
    for at in 0..p.module.functions.len() {
        let function = &p.module.functions[at];
        let names = &scopes.functions[at];
        let edges = Edges::of_function(alloc, function, names)?;
        let around = Around {
            module: &p.module,
            function,
            names,
            edges: &edges,
        };
        found = look_at_function(alloc, p, &around, at, found)?;
    }
    Ok(found)
}
