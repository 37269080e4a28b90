//! Items with one name.

ghost use Rattle.std.specs.Prelude.{◌≡◌, ◌↔◌, ◌<◌, ◌+◌, List, ℕ, length, slice_get, option_map, option_copied, true, Some, IfOk, IfSome, IfNone, IsTrue};
ghost use Rattle.std.specs.List.{IsDistinct};
ghost use Rattle.std.specs.Str.{bytes_eq};
ghost use Rattle.ir_tree.specs.Known.{module_known, declare_known};
ghost use Rattle.ir_tree.specs.ShapeOf.{module_shape, declare_shape};
ghost use Rattle.ir_rules.specs.Faults.{IsFirst, ClashFault};
ghost use Rattle.ir_rules.specs.NameRules.{AreTwins, declared_at};
ghost use Rattle.ir_repeats.specs.Entries.{AreAlike, IsEarliest, AreEarliest, AreNamedBelow, EntryClash, IsAmong, IsFine, MayShare, place_of};

use crate::entries::{Entry, Item, symbol_entries, type_entries};
use crate::first::{first_of, least_of};
use ir_same::{same_ty, same_tys};
use ir_tree::module::{Declare, Module};
use ir_tree::parsed::Parsed;
use std::alloc::{AllocError, Global};

/// Tells whether two functions are declared with the same types.
fn are_alike(one: &Declare, other: &Declare) -> bool
    ensures { (names : List (List ℕ)) → IsDistinct bytes_eq names →
        declare_known (length names) one.now ≡ true →
        declare_known (length names) other.now ≡ true →
        IsTrue result ↔ AreAlike (declare_shape names one.now) (declare_shape names other.now) }
{
    same_ty(&one.ret, &other.ret) && same_tys(&one.params, &other.params)
}

/// Returns the declared function that an item is, if it is one.
fn declared(m: &Module, item: Item) -> Option<&Declare>
    requires known { module_known m.now ≡ true }
    ensures known { IfSome result (λ d. declare_known (length m.now.names) d.now ≡ true) }
    ensures found { option_map (declare_shape m.now.names) (option_copied result)
        ≡ declared_at (module_shape m.now) (place_of item) }
{
    match item {
        Item::Declare(at) if at < m.declares.len() => Some(&m.declares[at]),
        _ => None,
    }
}

/// Tells whether two items are functions that are declared with the same types.
fn are_twins(m: &Module, one: Item, other: Item) -> bool
    requires known { module_known m.now ≡ true }
    ensures { IsTrue result ↔ AreTwins (module_shape m.now) (place_of one) (place_of other) }
{
    let _names = m.names.len();
    match (declared(m, one), declared(m, other)) {
        (Some(one), Some(other)) => are_alike(one, other),
        _ => false,
    }
}

/// Returns which of an entry and another one, if there is another, stands first in the text.
fn earlier(entries: &[Entry], at: usize, other: Option<usize>) -> Option<usize>
    requires at { at < length entries.now }
    requires other { IfSome other (λ i. i < length entries.now) }
    ensures { (id : ℕ) (e : Entry) → slice_get entries.now at ≡ Some e → e.name.0 ≡ id →
        IsEarliest entries.now at id other → IsEarliest entries.now (at + 1) id result }
{
    match other {
        Some(other) if entries[other].spot <= entries[at].spot => Some(other),
        _ => Some(at),
    }
}

/// Returns, for each of so many names, which entry with it stands first in the text.
fn earliest(
    alloc: Global,
    entries: &[Entry],
    count: usize,
) -> Result<Vec<Option<usize>>, AllocError>
    requires below { AreNamedBelow count entries.now }
    ensures long { IfOk result (λ firsts. length firsts.items ≡ count) }
    ensures firsts { IfOk result
        (λ firsts. AreEarliest entries.now (length entries.now) firsts.items) }
{
    let mut firsts = vec![in alloc; None; count]?;
    for at in 0..entries.len() {
        let id = entries[at].name.0 as usize;
        firsts[id] = earlier(entries, at, firsts[id]);
    }
    Ok(firsts)
}

/// Tells whether two items may have one name: they are one item, or twins.
fn may_share(m: &Module, one: Item, other: Item) -> bool
    requires known { module_known m.now ≡ true }
    ensures { IsTrue result ↔ MayShare m.now one other }
{
    one == other || are_twins(m, one, other)
}

/// Returns the offset at which an entry clashes with the first one of its name, if it does.
fn clash_of(m: &Module, entries: &[Entry], firsts: &[Option<usize>], entry: Entry) -> Option<usize>
    requires known { module_known m.now ≡ true }
    requires firsts { AreEarliest entries.now (length entries.now) firsts.now }
    requires below { entry.name.0 < length firsts.now }
    requires among { IsAmong entries.now entry }
    ensures clash { IfSome result (EntryClash m.now entries.now) }
    ensures here { IfSome result (λ s. s ≡ entry.spot) }
    ensures fine { IfNone result (IsFine m.now entries.now firsts.now entry) }
{
    match firsts[entry.name.0 as usize] {
        None => None,
        Some(first) => {
            if may_share(m, entries[first].item, entry.item) {
                None
            } else {
                Some(entry.spot)
            }
        }
    }
}

/// Returns the first offset at which an entry clashes with another one.
fn first_clash(m: &Module, entries: &[Entry], firsts: &[Option<usize>]) -> Option<usize>
    requires known { module_known m.now ≡ true }
    requires below { AreNamedBelow (length firsts.now) entries.now }
    requires firsts { AreEarliest entries.now (length entries.now) firsts.now }
    ensures { IsFirst (EntryClash m.now entries.now) result }
{
    let mut found = None;
    for at in 0..entries.len() {
        if let Some(spot) = clash_of(m, entries, firsts, entries[at]) {
            found = Some(least_of(found, spot));
        }
    }
    found
}

/// Returns the first offset at which an entry clashes with another one, after a look at all of them.
fn clash_among(alloc: Global, m: &Module, entries: &[Entry]) -> Result<Option<usize>, AllocError>
    requires known { module_known m.now ≡ true }
    requires below { AreNamedBelow (length m.now.names) entries.now }
    ensures { IfOk result (IsFirst (EntryClash m.now entries.now)) }
{
    let firsts = earliest(alloc, entries, m.names.len())?;
    Ok(first_clash(m, entries, &firsts))
}

/// Returns the first offset at which an item has the name of another one before it, which it may not have.
pub fn first_item_clash(alloc: Global, p: &Parsed) -> Result<Option<usize>, AllocError>
    requires known { module_known p.now.«module» ≡ true }
    ensures { IfOk result (IsFirst (ClashFault p.now)) }
{
    let _names = p.module.names.len();
    let types = type_entries(alloc, p)?;
    let symbols = symbol_entries(alloc, p)?;
    let of_types = clash_among(alloc, &p.module, &types)?;
    let of_symbols = clash_among(alloc, &p.module, &symbols)?;
    Ok(first_of(of_types, of_symbols))
}
