//! The first instructions whose types aren't proper.

ghost use Rattle.std.specs.Prelude.{◌≡◌, ◌<◌, true, length, IfOk};
ghost use Rattle.ir_tree.specs.Known.{module_known};
ghost use Rattle.ir_names.specs.Scopes.{AreScopesOf};
ghost use Rattle.ir_check_consts.specs.Tables.{AreTypeTables};
ghost use Rattle.ir_check_insts.specs.Surroundings.{IsAround};
ghost use Rattle.ir_types.specs.Looks.{IsInBlock, IsInFunction, IsInstPlace, HasLooked};
ghost use Rattle.ir_types.specs.Inside.{IsAroundIn};

use crate::faults::fault_at;
use ir_check_consts::TypeTables;
use ir_check_insts::Around;
use ir_names::Scopes;
use ir_repeats::first_of;
use ir_tree::parsed::Parsed;
use std::alloc::{AllocError, Global};

/// Returns the first offset of an instruction of a block whose types aren't proper.
fn first_of_block(
    alloc: Global,
    p: &Parsed,
    around: &Around,
    function: usize,
    block: usize,
) -> Result<Option<usize>, AllocError>
    requires around { IsAround around.now }
    requires here { IsAroundIn p.now function around.now }
    requires within { block < length around.now.function.now.blocks.items }
    ensures { IfOk result (HasLooked p.now (IsInBlock function block)) }
{
    let insts = &around.function.blocks[block].insts;
    let spots = &p.spots.insts[function][block];
    let mut found = None;
    for at in 0..insts.len() {
        let is_proper = around.is_proper(alloc, block, &insts[at])?;
        found = first_of(found, fault_at(is_proper, spots[at]));
    }
    Ok(found)
}

/// Returns the first offset of an instruction of a function whose types aren't proper.
fn first_of_function(
    alloc: Global,
    p: &Parsed,
    around: &Around,
    function: usize,
) -> Result<Option<usize>, AllocError>
    requires around { IsAround around.now }
    requires here { IsAroundIn p.now function around.now }
    ensures { IfOk result (HasLooked p.now (IsInFunction function)) }
{
    let mut found = None;
    for block in 0..around.function.blocks.len() {
        found = first_of(found, first_of_block(alloc, p, around, function, block)?);
    }
    Ok(found)
}

/// Returns the first offset of an instruction whose types aren't proper.
pub fn first_of_instructions(
    alloc: Global,
    p: &Parsed,
    tables: &TypeTables,
    scopes: &Scopes,
) -> Result<Option<usize>, AllocError>
    requires known { module_known p.now.«module» ≡ true }
    requires tables { AreTypeTables p.now.«module» tables.now }
    requires scopes { AreScopesOf p.now.«module» scopes.now }
    ensures { IfOk result (HasLooked p.now IsInstPlace) }
{
    let mut found = None;
    for at in 0..p.module.functions.len() {
        let around = Around {
            module: &p.module,
            types: tables,
            names: &scopes.module,
            function: &p.module.functions[at],
            values: &scopes.functions[at],
        };
        found = first_of(found, first_of_function(alloc, p, &around, at)?);
    }
    Ok(found)
}
