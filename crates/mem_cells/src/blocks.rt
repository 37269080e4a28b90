//! Blocks of memory, and the values that their slots keep.
ghost use Rattle.std.specs.Prelude.{◌≡◌, ◌≤◌, ◌<◌, ◌+◌, ◌^◌, ℕ, List, length, take};
ghost use Rattle.ir_model.specs.Values.{Cell, Address};
ghost use Rattle.ir_model.specs.Memory.{access_size, value_in, cells_of, number_in, integer_of, address_in};
ghost use Rattle.ir_model.specs.MemoryFacts.{Carries};
ghost use Rattle.mem_cells.specs.Shapes.{value_shape, pointer_shape};
ghost use Rattle.mem_cells.specs.Slots.{KeepEach, KeepAddress, slot_in, slots_from, kept_slots, HasWords};

use crate::slots::{
    BYTE, FIRST_PART, POISON_SLOT, Slot, UNKNOWN, are_bytes, are_parts, high_word, low_word,
};
use crate::values::{Pointer, Value};
use ir_model::Access;

/// A block of memory.
#[derive(Drop)]
pub struct Block {
    /// Whether it may be accessed.
    pub live: bool,
    /// How many bytes it has.
    pub size: usize,
    /// What its bytes hold, as long as it may be accessed.
    pub slots: Vec<Slot>,
}

/// Returns how many bytes are moved.
pub fn size_of(access: Access) -> usize
    ensures { result ≡ access_size access }
{
    match access {
        Access::I8 => 1,
        Access::I16 => 2,
        Access::I32 => 4,
        Access::I64 | Access::Ptr => 8,
    }
}

/// Returns the value that slots keep.
pub fn value_of(access: Access, slots: &[Slot]) -> Value
    requires { length slots.now ≡ access_size access }
    ensures { (cells : List Cell) → KeepEach slots.now cells →
        (length slots.now ≡ 8 → KeepAddress slots.now cells) →
        value_shape result ≡ value_in access cells }
{
    match access {
        Access::I8 => integer_of(8, slots),
        Access::I16 => integer_of(16, slots),
        Access::I32 => integer_of(32, slots),
        Access::I64 => integer_of(64, slots),
        Access::Ptr => address_of(slots),
    }
}

/// Returns the integer of a width that slots keep, or poison where one keeps no number.
fn integer_of(width: u8, slots: &[Slot]) -> Value
    requires { length slots.now ≤ 8 }
    ensures { (cells : List Cell) → KeepEach slots.now cells →
        value_shape result ≡ integer_of width (number_in cells) }
{
    if are_bytes(slots) {
        Value::Integer(width, low_word(slots))
    } else {
        Value::Poison
    }
}

/// Returns the address that eight slots keep, null where all bytes are zero, or else poison.
fn address_of(slots: &[Slot]) -> Value
    requires { length slots.now ≡ 8 }
    ensures { (cells : List Cell) → KeepEach slots.now cells → KeepAddress slots.now cells →
        value_shape result ≡ address_in cells }
{
    if are_parts(slots) {
        return Value::Address(Pointer {
            block: high_word(slots),
            offset: low_word(slots),
        });
    }
    if are_bytes(slots) && low_word(slots) == 0 {
        return Value::Address(Pointer {
            block: 0,
            offset: 0,
        });
    }
    Value::Poison
}

/// Returns slots that keep a value; an access keeps as many of them as it moves bytes.
pub fn slots_of(value: Value) -> [Slot; 8]
    ensures slots { result ≡ kept_slots (value_shape value) }
    ensures words { HasWords (value_shape value) }
{
    match value {
        Value::Integer(_, number) => eight_slots(BYTE, 0, number, 0),
        Value::Address(at) => address_slots(at),
        Value::Poison => eight_slots(UNKNOWN, 0, 0, 0),
    }
}

/// Returns slots that keep an address.
fn address_slots(at: Pointer) -> [Slot; 8]
    ensures slots { result ≡ kept_slots (Address (pointer_shape at)) }
    ensures words { HasWords (Address (pointer_shape at)) }
{
    let Pointer { block, offset } = at;
    if block == 0 && offset == 0 {
        eight_slots(BYTE, 0, 0, 0)
    } else {
        eight_slots(FIRST_PART, 1, offset, block)
    }
}

/// Returns slots that keep the bytes of two words, and of which each kind is a step above the one before.
fn eight_slots(first: u8, step: u8, low: u64, high: u64) -> [Slot; 8]
    requires first { first ≤ 2 }
    requires step { step ≤ 1 }
    ensures { result ≡ slots_from (slot_in first step low high) 0 8 }
{
    let low_bytes = low.to_le_bytes();
    let high_bytes = high.to_le_bytes();
    let mut slots = [POISON_SLOT; 8];
    for k in 0..8 {
        slots[k] = Slot {
            kind: first + step * k as u8,
            low: low_bytes[k],
            high: high_bytes[k],
        };
    }
    slots
}
