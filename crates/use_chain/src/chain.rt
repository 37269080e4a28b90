//! The uses of each value of a function.
ghost use Rattle.std.specs.Prelude.{◌≡◌, ℕ, ◌+◌, ◌-◌, ◌*◌, ◌^◌, ◌<◌, ◌≤◌, ◌≢◌, ◌∷◌, [], map, length, replicate, slice_get, slice_index, option_map, MatchOption, IfOk, OnOk, OnErr};
ghost use Rattle.std.specs.List.{sum_by, range_with_len};
ghost use Rattle.use_chain.specs.Links.{link_at};
ghost use Rattle.use_chain.specs.Lists.{AreLists, members};
ghost use Rattle.use_chain.specs.Kept.{total, lone_head};
ghost use Rattle.use_chain.specs.Uses.{Use, uses_of, HasUse, IsLive, all_without, with_use};
ghost use Rattle.use_chain.specs.declared.uses.UseAt.{UseAt};

use crate::link::Link;
use crate::lists::{append, move_link};
use crate::uses::{Site, UseAt};
use ir_tree::module::{BlockId, ValueId};
use std::alloc::{AllocError, Global};
use std::marker::Model;

/// The list of the uses of each value of a function, and room for more uses.
///
/// Each call but `new`, `reserve` and `use_at` takes constant time.
#[derive(Drop)]
pub struct UseChain {
    /// The heads of the lists of the values, the head of the links that are free, and then a link
    /// for each use that there is room for.
    links: Vec<Link>,
    /// How many links each list has, that of the free ones last.
    counts: Vec<usize>,
}

impl Model for UseChain {
    ghost use Rattle.use_chain.specs.Uses.{Chain};
    ghost use Rattle.use_chain.specs.Kept.{chain_of, IsKept};

    ghost Value = { Chain };

    ghost view = { λ c. chain_of c.links.items c.counts.items };

    ghost invariant = { λ c. IsKept c.links.items c.counts.items };
}

/// What stands at a link that is for no use.
const NOWHERE: UseAt = UseAt {
    block: BlockId(0),
    inst: 0,
    operand: 0,
};

impl UseChain {
    /// Makes an empty list for each of so many values, without room for uses.
    pub fn new(alloc: Global, values: u32) -> Result<UseChain, AllocError>
        ensures lists { IfOk result (λ chain. chain.lists ≡ replicate values []) }
        ensures spare { IfOk result (λ chain. chain.spare ≡ 0) }
    {
        let heads = values as usize + 1;
        let mut counts = Vec::new(alloc);
        counts.resize(heads, 0)?;
        Ok(UseChain {
            links: lone_heads(alloc, heads)?,
            counts,
        })
    }

    /// Makes room for at least so many more uses.
    ///
    /// After want of memory nothing has changed.
    pub fn reserve(&mut self, more: usize) -> Result<(), AllocError>
        requires { sum_by length self.old.lists + more < 2 ^ 32 }
        ensures lists { self.new.lists ≡ self.old.lists }
        ensures spare { OnOk result (more ≤ self.new.spare) }
        ensures err { OnErr result (self.new ≡ self.old) }
    {
        let spare = self.counts[self.counts.len() - 1];
        if more <= spare {
            return Ok(());
        }
        let start = self.links.len();
        let free = Link {
            prev: 0,
            next: 0,
            list: 0,
            at: NOWHERE,
        };
        self.links.resize(start + (more - spare), free)?;
        free_links(&mut self.links, &mut self.counts, start);
        Ok(())
    }

    /// Puts a use last in the list of a value, and returns its site.
    ///
    /// The site is that of no other use as long as this one is there.
    pub fn add_use(&mut self, v: ValueId, at: UseAt) -> Site
        requires value { v.0 < length self.old.lists }
        requires spare { 0 < self.old.spare }
        ensures lists { self.new.lists ≡ with_use self.old.lists v.0 result.0 at }
        ensures spare { self.new.spare + 1 ≡ self.old.spare }
        ensures fresh { IsLive self.old result.0 → ⊥ }
    {
        let heads = self.counts.len();
        let k = self.links[heads - 1].next;
        move_link(&mut self.links, &mut self.counts, k, v.0 as usize, at);
        Site((k - heads) as u32)
    }

    /// Removes a use. All others keep their order.
    pub fn drop_use(&mut self, s: Site)
        requires { IsLive self.old s.0 }
        ensures lists { self.new.lists ≡ all_without s.0 self.old.lists }
        ensures spare { self.new.spare ≡ self.old.spare + 1 }
    {
        let heads = self.counts.len();
        move_link(
            &mut self.links,
            &mut self.counts,
            heads + s.0 as usize,
            heads - 1,
            NOWHERE,
        );
    }

    /// Removes a use from its list and puts it last in the list of a value. It keeps its site.
    pub fn move_use(&mut self, s: Site, to: ValueId)
        requires live { IsLive self.old s.0 }
        requires value { to.0 < length self.old.lists }
        ensures lists { (v : ℕ) (at : UseAt) → HasUse self.old v s.0 at →
            self.new.lists ≡ with_use (all_without s.0 self.old.lists) to.0 s.0 at }
        ensures spare { self.new.spare ≡ self.old.spare }
    {
        let k = self.counts.len() + s.0 as usize;
        let at = self.links[k].at;
        move_link(&mut self.links, &mut self.counts, k, to.0 as usize, at);
    }

    /// Returns how many uses a value has.
    pub fn count(&self, v: ValueId) -> usize
        requires { v.0 < length self.now.lists }
        ensures { result ≡ length (uses_of self.now v.0) }
    {
        self.counts[v.0 as usize]
    }

    /// Returns the use of a value with a number, from 0 in the order of the list, or `None` where
    /// there are no more.
    pub fn use_at(&self, v: ValueId, k: usize) -> Option<UseAt>
        requires { v.0 < length self.now.lists }
        ensures { result ≡ option_map (λ u. u.at) (slice_get (uses_of self.now v.0) k) }
    {
        if k >= self.counts[v.0 as usize] {
            return None;
        }
        let link = link_after(&self.links, &self.counts, v.0 as usize, k);
        Some(self.links[link].at)
    }

    /// Returns the only use of a value, or `None` where it hasn't exactly one.
    pub fn single_use(&self, v: ValueId) -> Option<UseAt>
        requires { v.0 < length self.now.lists }
        ensures { MatchOption result (length (uses_of self.now v.0) ≢ 1)
            (λ at. map (λ u. u.at) (uses_of self.now v.0) ≡ at ∷ []) }
    {
        if self.counts[v.0 as usize] != 1 {
            return None;
        }
        let link = self.links[v.0 as usize].next;
        Some(self.links[link].at)
    }
}

/// Makes heads of so many empty lists.
fn lone_heads(alloc: Global, heads: usize) -> Result<Vec<Link>, AllocError>
    ensures { IfOk result (λ links. links.items ≡ map lone_head (range_with_len 0 heads)) }
{
    let mut links = Vec::new(alloc);
    for v in 0..heads {
        links.push(Link {
            prev: v,
            next: v,
            list: v,
            at: NOWHERE,
        })?;
    }
    Ok(links)
}

/// Puts the links from one on into the list of those that are free.
fn free_links(links: &mut [Link], counts: &mut [usize], start: usize)
    requires some { 0 < length counts.old }
    requires lists { AreLists links.old counts.old start }
    requires total { start ≡ length counts.old + total counts.old }
    requires fits { length links.old < 2 ^ 63 }
    ensures lists { AreLists links.new counts.new (length links.new) }
    ensures total { length links.new ≡ length counts.new + total counts.new }
    ensures members { (v : ℕ) → v + 1 < length counts.old →
        members links.new counts.new v ≡ members links.old counts.old v }
    ensures uses { (j : ℕ) → j < start → (link_at links.new j).at ≡ (link_at links.old j).at }
    ensures free { slice_index counts.new (length counts.old - 1) + start ≡
        slice_index counts.old (length counts.old - 1) + length links.new }
{
    let free = counts.len() - 1;
    for k in start..links.len() {
        append(links, counts, k, free, NOWHERE);
    }
}

/// Returns the link of the use of a list with a number, from 0 in the order of the list.
fn link_after(links: &[Link], counts: &[usize], list: usize, n: usize) -> usize
    requires lists { AreLists links.now counts.now (length links.now) }
    requires list { list < length counts.now }
    requires within { n < slice_index counts.now list }
    ensures link { result ≡ slice_index (members links.now counts.now list) n }
    ensures within { result < length links.now }
{
    let mut link = links[list].next;
    for _ in 0..n {
        link = links[link].next;
    }
    link
}
