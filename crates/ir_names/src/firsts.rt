//! For the numbers of names, the first items with them.

ghost use Rattle.std.specs.Prelude.{◌≡◌, ◌<◌, ◌≤◌, ℕ, length, Some, IfOk, slice_get};
ghost use Rattle.std.specs.Ordering.{nat_cmp};
ghost use Rattle.std.specs.BTreeMap.{get};
ghost use Rattle.ir_names.specs.Numbers.{first_with};

use ir_tree::names::NameId;
use std::alloc::{AllocError, Global};
use std::collections::BTreeMap;

/// Returns, for each of so many names, which item is the first one with it.
pub fn first_of_each(
    alloc: Global,
    ids: &[Option<NameId>],
    count: usize,
) -> Result<Vec<Option<usize>>, AllocError>
    ensures { IfOk result (λ firsts. (number : ℕ) → number < count →
        slice_get firsts.items number ≡ Some (first_with ids.now number)) }
{
    let mut firsts = vec![in alloc; None; count]?;
    for at in (0..ids.len()).rev() {
        if let Some(id) = ids[at] {
            let number = id.0 as usize;
            if number < count {
                firsts[number] = Some(at);
            }
        }
    }
    Ok(firsts)
}

/// Returns, for the names that items have, which item is the first one with it.
pub fn first_of_some(
    alloc: Global,
    ids: &[Option<NameId>],
) -> Result<BTreeMap<u32, usize>, AllocError>
    ensures { IfOk result (λ firsts. (number : ℕ) →
        get nat_cmp firsts number ≡ first_with ids.now number) }
{
    let mut firsts = BTreeMap::new(alloc);
    for place in (0..ids.len()).rev() {
        if let Some(id) = ids[place] {
            firsts.insert(id.0, place)?;
        }
    }
    Ok(firsts)
}
