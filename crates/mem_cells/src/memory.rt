//! Memory: blocks that are made, end, and are loaded from and stored to.
ghost use Rattle.std.specs.Prelude.{◌≡◌, ◌≤◌, ◌<◌, ◌+◌, ℕ, List, [], ◌∷◌, ◌++◌, length, IfOk, OnOk, OnErr, MatchResult, None, Some};
ghost use Rattle.ir_model.specs.Values.{Cell, MemoryBlock, null_block, live_block};
ghost use Rattle.ir_model.specs.Memory.{block_at, size_of, access_size, access_fault, made, ended, load_at, stored};
ghost use Rattle.ir_model.specs.MemoryFacts.{Carries};
ghost use Rattle.mem_cells.specs.Shapes.{pointer_shape, value_shape, why_of, answer_of};
ghost use Rattle.mem_cells.specs.Shown.{Shows, HasCells, block_count, slot_count};

use crate::blocks::{Block, size_of, slots_of, value_of};
use crate::cells::Cells;
use crate::slots::put;
use crate::values::{Fault, Pointer, Value};
use ir_model::Access;
use std::alloc::{AllocError, Global};

/// The memory of a program.
///
/// Its blocks are numbered from 0 in the order in which they were made. Block 0 is null's: it has no
/// bytes.
#[derive(Drop)]
pub struct Mem {
    blocks: Vec<Block>,
}

impl Mem {
    /// Makes a memory that has only the block of null.
    pub fn new(alloc: Global) -> Result<Mem, AllocError>
        ensures { IfOk result (λ mem. Shows (null_block ∷ []) mem) }
    {
        let mut mem = Mem {
            blocks: Vec::new(alloc),
        };
        mem.add(Cells::new(alloc))?;
        Ok(mem)
    }

    /// Makes a live block of so many bytes of poison, and returns its number: how many there were.
    ///
    /// After want of memory nothing has changed.
    pub fn make(&mut self, alloc: Global, size: u64) -> Result<u64, AllocError>
        ensures number { (memory : List MemoryBlock) → Shows memory self.old →
            IfOk result (λ number. number ≡ length memory) }
        ensures blocks { (memory : List MemoryBlock) → Shows memory self.old →
            OnOk result (Shows (made size memory) self.new) }
        ensures err { (memory : List MemoryBlock) → Shows memory self.old →
            OnErr result (Shows memory self.new) }
    {
        let mut cells = Cells::new(alloc);
        cells.push_poison(size)?;
        self.add(cells)
    }

    /// Makes a live block that has these bytes, and returns its number: how many there were.
    ///
    /// After want of memory nothing has changed.
    pub fn add(&mut self, cells: Cells) -> Result<u64, AllocError>
        ensures number { (memory : List MemoryBlock) → Shows memory self.old →
            IfOk result (λ number. number ≡ length memory) }
        ensures blocks { (memory : List MemoryBlock) (bytes : List Cell) → Shows memory self.old →
            HasCells bytes cells → OnOk result (Shows (memory ++ live_block bytes ∷ []) self.new) }
        ensures err { (memory : List MemoryBlock) → Shows memory self.old →
            OnErr result (Shows memory self.new) }
    {
        let number = self.blocks.len() as u64;
        self.blocks.push(Block {
            live: true,
            size: cells.slots.len(),
            slots: cells.slots,
        })?;
        Ok(number)
    }

    /// Tells whether a block is live.
    pub fn is_live(&self, block: u64) -> bool
        requires { block < block_count self.now }
        ensures { (memory : List MemoryBlock) → Shows memory self.now →
            result ≡ (block_at memory block).live }
    {
        self.blocks[block as usize].live
    }

    /// Returns how many bytes a block has, live or dead.
    pub fn size(&self, block: u64) -> u64
        requires { block < block_count self.now }
        ensures { (memory : List MemoryBlock) → Shows memory self.now →
            result ≡ size_of memory block }
    {
        self.blocks[block as usize].size as u64
    }

    /// Ends a block: it is dead from now on, and its bytes take no room.
    pub fn end(&mut self, alloc: Global, block: u64)
        requires { block < block_count self.old }
        ensures ended { (memory : List MemoryBlock) → Shows memory self.old →
            Shows (ended block memory) self.new }
        ensures count { block_count self.new ≡ block_count self.old }
    {
        let block = &mut self.blocks[block as usize];
        block.live = false;
        block.slots = Vec::new(alloc);
    }

    /// Loads a value from an address.
    ///
    /// # Errors
    /// `Dead` where the block is dead, else `OutOfBounds` where not all of the bytes lie in it.
    pub fn load(&self, at: Pointer, access: Access) -> Result<Value, Fault>
        requires { at.block < block_count self.now }
        ensures { (memory : List MemoryBlock) → Shows memory self.now →
            answer_of result ≡ load_at access (pointer_shape at) memory }
    {
        let start = self.place(at, access)?;
        let slots = &self.blocks[at.block as usize].slots;
        Ok(value_of(access, &slots[start..start + size_of(access)]))
    }

    /// Stores a value at an address; all other bytes stay.
    ///
    /// # Errors
    /// `Dead` where the block is dead, else `OutOfBounds` where not all of the bytes lie in it. Nothing
    /// has changed then.
    pub fn store(&mut self, at: Pointer, access: Access, value: Value) -> Result<(), Fault>
        requires block { at.block < block_count self.old }
        requires carried { Carries access (value_shape value) }
        ensures fault { (memory : List MemoryBlock) → Shows memory self.old → MatchResult result
            (λ _. access_fault access (pointer_shape at) memory ≡ None)
            (λ fault. access_fault access (pointer_shape at) memory ≡ Some (why_of fault)) }
        ensures stored { (memory : List MemoryBlock) → Shows memory self.old → OnOk result
            (Shows (stored access (value_shape value) (pointer_shape at) memory) self.new) }
        ensures err { OnErr result (self.new ≡ self.old) }
    {
        let start = self.place(at, access)?;
        let kept = slots_of(value);
        let slots = &mut self.blocks[at.block as usize].slots;
        put(slots, start, &kept[..size_of(access)]);
        Ok(())
    }

    /// Returns where the bytes of an access begin in its block.
    fn place(&self, at: Pointer, access: Access) -> Result<usize, Fault>
        requires { at.block < block_count self.now }
        ensures fault { (memory : List MemoryBlock) → Shows memory self.now → MatchResult result
            (λ _. access_fault access (pointer_shape at) memory ≡ None)
            (λ fault. access_fault access (pointer_shape at) memory ≡ Some (why_of fault)) }
        ensures place { IfOk result (λ place. place ≡ at.offset) }
        ensures room { IfOk result (λ place.
            place + access_size access ≤ slot_count self.now at.block) }
    {
        let block = &self.blocks[at.block as usize];
        if !block.live {
            return Err(Fault::Dead);
        }
        let size = block.slots.len();
        let start = at.offset as usize;
        if start > size || size - start < size_of(access) {
            return Err(Fault::OutOfBounds);
        }
        Ok(start)
    }
}
