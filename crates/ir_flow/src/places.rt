//! Where numbers stand in a list.

ghost use Rattle.std.specs.Prelude.{◌↔◌, ℕ, IsTrue, IfOk, Contains};
ghost use Rattle.ir_flow.specs.Places.{HasPlace, ArePlaces};

use std::alloc::{AllocError, Global};
use std::collections::BTreeMap;

/// Returns, for each number of a list, a place at which it stands.
pub fn places_of(alloc: Global, numbers: &[usize]) -> Result<BTreeMap<usize, usize>, AllocError>
    ensures { IfOk result (ArePlaces numbers.now) }
{
    let mut places = BTreeMap::new(alloc);
    for (at, number) in numbers.iter().enumerate() {
        places.insert(*number, at)?;
    }
    Ok(places)
}

/// Tells whether a map has a number as a key.
fn has_place(places: &BTreeMap<usize, usize>, number: usize) -> bool
    ensures { IsTrue result ↔ HasPlace places.now number }
{
    places.contains_key(&number)
}

/// Tells whether a map has each number of a list.
pub fn have_places(numbers: &[usize], places: &BTreeMap<usize, usize>) -> bool
    ensures { IsTrue result ↔
        ((number : ℕ) → Contains numbers.now number → HasPlace places.now number) }
{
    for number in numbers {
        if !has_place(places, *number) {
            return false;
        }
    }
    true
}
