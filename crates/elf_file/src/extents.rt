//! Whether ranges of addresses share one, and how many they have.

ghost use Rattle.std.specs.Prelude.{◌≡◌, ◌+◌, ◌-◌, ◌^◌, ◌<◌, ◌≤◌, ◌==◌, not, min, length, filter, All, MatchBool, ℕ, slice_index_or};
ghost use Rattle.std.specs.List.{AllAdjacentBelow};
ghost use Rattle.std.specs.List.Sorted.{IsNonDecreasingBy, IsPermutation};
ghost use Rattle.elf_file.specs.Extents.{any_extents_shared, extents_size, refusal_of};

use crate::error::ElfError;

/// The most bytes of memory that an image may take: half a gibibyte.
const MOST_MEMORY: u64 = 536_870_912;

/// The addresses of a segment: this many, from the base.
#[derive(Clone, Copy, Debug)]
pub struct Extent {
    pub base: u64,
    pub size: u64,
}

/// Drops the empty ranges and sorts the others by their beginnings.
fn arrange(extents: &mut Vec<Extent>)
    ensures moved { IsPermutation (filter (λ x. not (x.size == 0)) extents.old.items) extents.new.items }
    ensures sorted { IsNonDecreasingBy (λ x. x.base) extents.new.items }
    ensures filled { All (λ x. 0 < x.size) extents.new.items }
{
    extents.retain(|extent| extent.size != 0);
    extents.sort_unstable_by_key(|extent| extent.base);
}

/// Tells whether a range reaches into the next one, among ranges sorted by their beginnings.
fn neighbours_share(extents: &[Extent]) -> bool
    requires { IsNonDecreasingBy (λ x. x.base) extents.now }
    ensures { MatchBool result ((k : ℕ) × (k + 1 < length extents.now) × ((d : Extent) → (slice_index_or extents.now (k + 1) d).base < (slice_index_or extents.now k d).base + (slice_index_or extents.now k d).size)) (AllAdjacentBelow (λ x y. x.base + x.size ≤ y.base) extents.now (length extents.now)) }
{
    for next in 1..extents.len() {
        let before = extents[next - 1];
        let after = extents[next];
        if after.base - before.base < before.size {
            return true;
        }
    }
    false
}

/// Tells whether two of the ranges share an address.
fn share_address(mut extents: Vec<Extent>) -> bool
    ensures { result ≡ any_extents_shared extents.items }
{
    arrange(&mut extents);
    neighbours_share(extents.as_slice())
}

/// Returns how many bytes the ranges have, or 2^64 - 1 where it is more.
fn size_of_all(extents: &[Extent]) -> u64
    ensures { result ≡ min (2 ^ 64 - 1) (extents_size extents.now) }
{
    let mut total = 0u64;
    for extent in extents {
        total = total.saturating_add(extent.size);
    }
    total
}

/// Tells why segments with these ranges make no image: `Overlap` or `TooLarge`, in this order.
pub fn refusal(extents: Vec<Extent>) -> Option<ElfError>
    ensures { result ≡ refusal_of extents.items }
{
    let total = size_of_all(extents.as_slice());
    if share_address(extents) {
        Some(ElfError::Overlap)
    } else if total > MOST_MEMORY {
        Some(ElfError::TooLarge)
    } else {
        None
    }
}
