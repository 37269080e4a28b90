//! The blocks of a function.

ghost use Rattle.std.specs.Prelude.{◌≡◌, ◌<◌, ◌^◌, true, length, map, IfOk};
ghost use Rattle.ir_tree.specs.Known.{block_known};
ghost use Rattle.ir_tree.specs.ShapeOf.{block_shape as source_shape};
ghost use Rattle.ir_program.specs.ProgramOf.{blocks_from};
ghost use Rattle.program_tables.specs.Shapes.{block_shape};
ghost use Rattle.program_actions.specs.Around.{IsAround, around_of, names_around};
ghost use Rattle.program_insts.specs.Numbers.{IsBlockTyped, block_by, after};

use crate::instructions::push_next;
use ir_tree::module::Block as SourceBlock;
use program_actions::Around;
use program_tables::Block;
use std::alloc::{AllocError, Global};

/// Returns a block, where the values that its instructions give are numbered from `next` on, and moves `next` past
/// them.
fn block_of(
    alloc: Global,
    around: &Around,
    source: &SourceBlock,
    next: &mut usize,
) -> Result<Block, AllocError>
    requires around { IsAround around.now }
    requires names { block_known (length (names_around around.now)) source.now ≡ true }
    requires proper { IsBlockTyped (around_of around.now)
        (source_shape (names_around around.now) source.now) }
    requires room { after next.old (source_shape (names_around around.now) source.now).insts
        < 2 ^ 64 }
    ensures block { IfOk result (λ block. block_shape block ≡ block_by (around_of around.now)
        next.old (source_shape (names_around around.now) source.now)) }
    ensures next { IfOk result (λ block. next.new
        ≡ after next.old (source_shape (names_around around.now) source.now).insts) }
{
    let mut block = Block {
        phis: Vec::new(alloc),
        body: Vec::new(alloc),
    };
    for inst in &source.insts {
        push_next(alloc, around, inst, &mut block, next)?;
    }
    Ok(block)
}

/// Returns the blocks of a function.
pub fn blocks_of(alloc: Global, around: &Around) -> Result<Vec<Block>, AllocError>
    requires { IsAround around.now }
    ensures { IfOk result (λ blocks. map block_shape blocks.items
        ≡ blocks_from (around_of around.now) 0 (around_of around.now).function.blocks) }
{
    // No number is as large as the count of values, so none passes a `usize`.
    let _count = around.values.len();
    let mut next = around.function.params.len();
    let mut blocks = Vec::new(alloc);
    for source in &around.function.blocks {
        blocks.push(block_of(alloc, around, source, &mut next)?)?;
    }
    Ok(blocks)
}
