//! What a caller knows of a memory that is shown.

ghost use Rattle.std.specs.Prelude.{◌≡◌, List, length};
ghost use Rattle.ir_model.specs.Values.{MemoryBlock};
ghost use Rattle.mem_cells.specs.declared.memory.Mem.{Mem};
ghost use Rattle.mem_cells.specs.Shown.{Shows, block_count};

/// Proves that a memory has as many blocks as the `Mem` that shows it, so that a block of the one is a
/// block of the other.
pub fn shown_blocks_are_counted()
    ensures { (memory : List MemoryBlock) (mem : Mem) → Shows memory mem →
        block_count mem ≡ length memory }
{}
