//! Slots, each of which keeps what one byte of memory holds.
ghost use Rattle.std.specs.Prelude.{◌≡◌, ◌+◌, ◌≤◌, ◌==◌, length};
ghost use Rattle.std.specs.List.{list_all};
ghost use Rattle.std.specs.Simd.Lanes.{put_chunk};
ghost use Rattle.mem_cells.specs.Slots.{are_in_order, word_of, byte_slot};

/// The kind of a slot whose byte is poison.
pub const UNKNOWN: u8 = 0;

/// The kind of a slot whose byte is a number.
pub const BYTE: u8 = 1;

/// The kind of a slot that keeps the first part of an address; the kinds of the next seven parts follow.
pub const FIRST_PART: u8 = 2;

/// What one byte of memory holds, in three bytes.
///
/// An address needs sixteen bytes, more than one part of it has: so each part has its byte of the
/// offset and its byte of the block's number, and only all eight parts together tell the address.
#[derive(Clone, Copy, Debug)]
pub struct Slot {
    /// `UNKNOWN`, `BYTE`, or `FIRST_PART` plus the index of a part, from 0 to 7.
    pub kind: u8,
    /// The number, or the part's byte of the offset.
    pub low: u8,
    /// The part's byte of the block's number.
    pub high: u8,
}

/// A slot whose byte is poison.
pub const POISON_SLOT: Slot = Slot {
    kind: UNKNOWN,
    low: 0,
    high: 0,
};

/// Returns a slot whose byte is a number.
pub fn byte_slot(number: u8) -> Slot
    ensures { result ≡ byte_slot number }
{
    Slot {
        kind: BYTE,
        low: number,
        high: 0,
    }
}

/// Tells whether all slots keep numbers.
pub fn are_bytes(slots: &[Slot]) -> bool
    ensures { result ≡ list_all (λ s. s.kind == 1) slots.now }
{
    slots.iter().all(|slot| slot.kind == BYTE)
}

/// Tells whether the slots keep the parts of an address in order, from the first one on.
pub fn are_parts(slots: &[Slot]) -> bool
    ensures { result ≡ are_in_order 0 slots.now }
{
    for (k, slot) in slots.iter().enumerate() {
        if slot.kind as usize != FIRST_PART as usize + k {
            return false;
        }
    }
    true
}

/// Returns the number that the low bytes of slots spell, the first of them its lowest.
pub fn low_word(slots: &[Slot]) -> u64
    requires { length slots.now ≤ 8 }
    ensures { result ≡ word_of (λ s. s.low) slots.now }
{
    let mut word: u64 = 0;
    for k in (0..slots.len()).rev() {
        word = 256 * word + slots[k].low as u64;
    }
    word
}

/// Returns the number that the high bytes of slots spell, the first of them its lowest.
pub fn high_word(slots: &[Slot]) -> u64
    requires { length slots.now ≤ 8 }
    ensures { result ≡ word_of (λ s. s.high) slots.now }
{
    let mut word: u64 = 0;
    for k in (0..slots.len()).rev() {
        word = 256 * word + slots[k].high as u64;
    }
    word
}

/// Writes slots in the place of as many from an index on.
pub fn put(slots: &mut [Slot], at: usize, kept: &[Slot])
    requires { at + length kept.now ≤ length slots.old }
    ensures { slots.new ≡ put_chunk at slots.old kept.now }
{
    slots[at..at + kept.len()].copy_from_slice(kept);
}
