//! Blocks of memory under one flip: loads into three versions and stores of each size, by an address that is
//! fetched. Definitions and laws; there is no code here.
#![tactic(auto)]

ghost use Rattle.flip_blocks.specs.Blocks.{BlocksAreLoaded, BlocksAreStored};
ghost use Rattle.flip_blocks.specs.Blocks.{StoredBytesAreKnown, StoredNumbersAreKnown};
ghost use Rattle.flip_blocks.specs.Blocks.{OtherBytesStay, OtherSlotsStay};

/// States that a load by a fetched address leaves three versions of the number of its bytes, extended by its
/// sign, in slots; where a byte isn't known, nothing is known of them.
pub fn blocks_are_loaded()
    ensures { BlocksAreLoaded }
{}

/// States that a store of a fetched value at a fetched address leaves the lowest bytes of the value in memory,
/// or bytes of which nothing is known where the value isn't known.
pub fn blocks_are_stored()
    ensures { BlocksAreStored }
{}

/// States what is known of the bytes that were stored, one by one and as a number.
pub fn stored_bytes_are_known()
    ensures bytes { StoredBytesAreKnown }
    ensures number { StoredNumbersAreKnown }
{}

/// States that other bytes stay, and slots of which no byte was stored.
pub fn others_stay()
    ensures bytes { OtherBytesStay }
    ensures slots { OtherSlotsStay }
{}
