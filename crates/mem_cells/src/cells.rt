//! The bytes of a block that is still to be made.
ghost use Rattle.std.specs.Prelude.{◌≡◌, ◌++◌, List, [], map, replicate, OnOk};
ghost use Rattle.ir_model.specs.declared.Access.TheVariants.{Ptr};
ghost use Rattle.ir_model.specs.Values.{Cell, Unknown, Byte, Address};
ghost use Rattle.ir_model.specs.Memory.{cells_of};
ghost use Rattle.mem_cells.specs.Shapes.{pointer_shape};
ghost use Rattle.mem_cells.specs.Shown.{HasCells};

use crate::blocks::slots_of;
use crate::slots::{POISON_SLOT, Slot, byte_slot};
use crate::values::{Pointer, Value};
use std::alloc::{AllocError, Global};

/// The bytes of a block that is still to be made.
///
/// After want of memory nothing is known of them.
#[derive(Drop)]
pub struct Cells {
    /// What they hold.
    pub slots: Vec<Slot>,
}

impl Cells {
    /// Makes no bytes.
    pub fn new(alloc: Global) -> Cells
        ensures { HasCells [] result }
    {
        Cells {
            slots: Vec::new(alloc),
        }
    }

    /// Adds so many bytes of poison.
    pub fn push_poison(&mut self, count: u64) -> Result<(), AllocError>
        ensures { (cells : List Cell) → HasCells cells self.old →
            OnOk result (HasCells (cells ++ replicate count Unknown) self.new) }
    {
        self.push_all(count, POISON_SLOT)
    }

    /// Adds so many bytes that are zero.
    pub fn push_zeros(&mut self, count: u64) -> Result<(), AllocError>
        ensures { (cells : List Cell) → HasCells cells self.old →
            OnOk result (HasCells (cells ++ replicate count (Byte 0)) self.new) }
    {
        self.push_all(count, byte_slot(0))
    }

    /// Adds these bytes.
    pub fn push_bytes(&mut self, bytes: &[u8]) -> Result<(), AllocError>
        ensures { (cells : List Cell) → HasCells cells self.old →
            OnOk result (HasCells (cells ++ map Byte bytes.now) self.new) }
    {
        for byte in bytes {
            self.slots.push(byte_slot(*byte))?;
        }
        Ok(())
    }

    /// Adds the eight bytes of an address.
    pub fn push_pointer(&mut self, at: Pointer) -> Result<(), AllocError>
        ensures { (cells : List Cell) → HasCells cells self.old →
            OnOk result (HasCells (cells ++ cells_of Ptr (Address (pointer_shape at))) self.new) }
    {
        self.slots.extend_from_slice(&slots_of(Value::Address(at)))
    }

    /// Adds so many slots.
    fn push_all(&mut self, count: u64, slot: Slot) -> Result<(), AllocError>
        ensures { OnOk result
            (self.new.slots.items ≡ self.old.slots.items ++ replicate count slot) }
    {
        let Some(size) = self.slots.len().checked_add(count as usize) else {
            return Err(AllocError);
        };
        self.slots.resize(size, slot)
    }
}
