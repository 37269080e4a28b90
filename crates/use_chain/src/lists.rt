//! Links taken out of lists, and put last in lists.
ghost use Rattle.std.specs.Prelude.{◌≡◌, ◌≢◌, ℕ, ◌+◌, ◌^◌, ◌<◌, ◌≤◌, length, slice_index};
ghost use Rattle.std.specs.List.{Contains, AllByRecursion};
ghost use Rattle.use_chain.specs.Links.{link_at};
ghost use Rattle.use_chain.specs.Lists.{AreLists, members, others, joined};
ghost use Rattle.use_chain.specs.Kept.{total, IsKept, Moved};

use crate::link::{Link, put_last, take_out};
use crate::uses::UseAt;

/// Takes a link out of its list.
pub fn remove(links: &mut [Link], counts: &mut [usize], k: usize)
    requires lists { AreLists links.old counts.old (length links.old) }
    requires home { (link_at links.old k).list < length counts.old }
    requires member { Contains (members links.old counts.old (link_at links.old k).list) k }
    ensures lists { AreLists links.new counts.new (length links.new) }
    ensures members { (v : ℕ) → v < length counts.old →
        members links.new counts.new v ≡ others k (members links.old counts.old v) }
    ensures uses { (j : ℕ) → (link_at links.new j).at ≡ (link_at links.old j).at }
    ensures total { total counts.new + 1 ≡ total counts.old }
{
    let list = links[k].list;
    take_out(links, k);
    counts[list] -= 1;
}

/// Puts a link that is in no list last in a list, for a use.
pub fn append(links: &mut [Link], counts: &mut [usize], k: usize, list: usize, at: UseAt)
    requires lists { AreLists links.old counts.old (length links.old) }
    requires above { length counts.old ≤ k }
    requires within { k < length links.old }
    requires list { list < length counts.old }
    requires absent { (v : ℕ) → v < length counts.old →
        AllByRecursion (λ j. j ≢ k) (members links.old counts.old v) }
    requires fits { slice_index counts.old list + 1 < 2 ^ 64 }
    ensures lists { (last : ℕ) → k < last → AreLists links.old counts.old last →
        AreLists links.new counts.new last }
    ensures members { (v : ℕ) → v < length counts.old →
        members links.new counts.new v ≡ joined k list v (members links.old counts.old v) }
    ensures here { (link_at links.new k).at ≡ at }
    ensures others { (j : ℕ) → j ≢ k → (link_at links.new j).at ≡ (link_at links.old j).at }
    ensures total { total counts.new ≡ total counts.old + 1 }
    ensures count { slice_index counts.new list ≡ slice_index counts.old list + 1 }
{
    put_last(links, k, list, at);
    counts[list] += 1;
}

/// Moves a link from its list to the end of a list, for a use.
pub fn move_to(links: &mut [Link], counts: &mut [usize], k: usize, to: usize, at: UseAt)
    requires lists { AreLists links.old counts.old (length links.old) }
    requires home { (link_at links.old k).list < length counts.old }
    requires member { Contains (members links.old counts.old (link_at links.old k).list) k }
    requires to { to < length counts.old }
    requires fits { total counts.old < 2 ^ 64 }
    ensures lists { AreLists links.new counts.new (length links.new) }
    ensures members { (v : ℕ) → v < length counts.old →
        members links.new counts.new v ≡ joined k to v (others k (members links.old counts.old v)) }
    ensures here { (link_at links.new k).at ≡ at }
    ensures others { (j : ℕ) → j ≢ k → (link_at links.new j).at ≡ (link_at links.old j).at }
    ensures total { total counts.new ≡ total counts.old }
{
    remove(links, counts, k);
    append(links, counts, k, to, at);
}

/// Moves a link of a chain from its list to the end of a list, for a use.
pub fn move_link(links: &mut Vec<Link>, counts: &mut Vec<usize>, k: usize, to: usize, at: UseAt)
    requires kept { IsKept links.old.items counts.old.items }
    requires home { (link_at links.old.items k).list < length counts.old.items }
    requires member { Contains
        (members links.old.items counts.old.items (link_at links.old.items k).list) k }
    requires to { to < length counts.old.items }
    ensures kept { IsKept links.new.items counts.new.items }
    ensures moved { Moved links.old.items counts.old.items
        links.new.items counts.new.items k to at }
{
    move_to(links, counts, k, to, at);
}
