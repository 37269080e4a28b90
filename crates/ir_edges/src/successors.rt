//! For each block of a function, the blocks that it leads to.

ghost use Rattle.std.specs.Prelude.{◌≡◌, ◌++◌, List, ℕ, true, length, map, filter_map, OnOk, IfOk};
ghost use Rattle.std.specs.Option.{option_to_list};
ghost use Rattle.std.specs.List.{list_all};
ghost use Rattle.ir_tree.specs.Known.{name_known, block_known, function_known};
ghost use Rattle.ir_tree.specs.ShapeOf.{name_shape, block_shape, function_shape};
ghost use Rattle.ir_tree.specs.declared.module.Function.{Function};
ghost use Rattle.ir_rules.specs.Values.{block_of};
ghost use Rattle.ir_names.specs.Tables.{AreNamesIn};
ghost use Rattle.ir_proper.specs.Edges.{all_targets, last_inst, successors};

use crate::targets::targets_of;
use ir_names::FunctionNames;
use ir_tree::module::{Block, Function};
use ir_tree::names::NameId;
use std::alloc::{AllocError, Global};

/// Appends the block that a label stands for, if there is one.
fn push_block(names: &FunctionNames, label: NameId, to: &mut Vec<usize>) -> Result<(), AllocError>
    ensures { OnOk result ((all : List (List ℕ)) (f : Function) → AreNamesIn all f names.now →
        name_known (length all) label ≡ true → to.new.items
        ≡ to.old.items ++ option_to_list (block_of (function_shape all f) (name_shape all label))) }
{
    if let Some(block) = names.block_of(label) {
        to.push(block)?;
    }
    Ok(())
}

/// Returns the blocks that labels stand for.
fn blocks_of(
    alloc: Global,
    names: &FunctionNames,
    labels: &[NameId],
) -> Result<Vec<usize>, AllocError>
    ensures { IfOk result (λ to. (all : List (List ℕ)) (f : Function) →
        AreNamesIn all f names.now → list_all (name_known (length all)) labels.now ≡ true →
        to.items ≡ filter_map (block_of (function_shape all f)) (map (name_shape all) labels.now)) }
{
    let mut to = Vec::new(alloc);
    for label in labels {
        push_block(names, *label, &mut to)?;
    }
    Ok(to)
}

/// Returns the labels that the last instruction of a block leads to.
fn last_labels(alloc: Global, block: &Block) -> Result<Vec<NameId>, AllocError>
    ensures shape { IfOk result (λ to. (names : List (List ℕ)) → map (name_shape names) to.items
        ≡ all_targets (last_inst (block_shape names block.now))) }
    ensures known { IfOk result (λ to. (count : ℕ) → block_known count block.now ≡ true →
        list_all (name_known count) to.items ≡ true) }
{
    match block.insts.last() {
        Some(inst) => targets_of(alloc, &inst.body),
        None => Ok(Vec::new(alloc)),
    }
}

/// Returns, for each block of a function, the blocks that its last instruction leads to, in the order of the
/// text. A label that no block has is left out.
pub fn successors_of(
    alloc: Global,
    f: &Function,
    names: &FunctionNames,
) -> Result<Vec<Vec<usize>>, AllocError>
    ensures { IfOk result (λ rows. (all : List (List ℕ)) → AreNamesIn all f.now names.now →
        function_known (length all) f.now ≡ true →
        map (λ row. row.items) rows.items ≡ successors (function_shape all f.now)) }
{
    let mut rows = Vec::new(alloc);
    for block in &f.blocks {
        let labels = last_labels(alloc, block)?;
        rows.push(blocks_of(alloc, names, &labels)?)?;
    }
    Ok(rows)
}
