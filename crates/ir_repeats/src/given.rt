//! Names that a function gives twice.

ghost use Rattle.std.specs.Prelude.{◌≡◌, [], length, map, true, IfOk, OnOk};
ghost use Rattle.ir_tree.specs.Known.{module_known};
ghost use Rattle.ir_rules.specs.Faults.{IsFirst, RepeatFault};
ghost use Rattle.ir_repeats.specs.Given.{given_id, ids_of_params, ids_of_insts, ids_of_blocks, given_ids, IsGivenAgain, HasSeen, Notes};

use crate::first::{first_of, least_of};
use ir_tree::module::{Block, Function, Inst, Param};
use ir_tree::names::NameId;
use ir_tree::parsed::Parsed;
use std::alloc::{AllocError, Global};
use std::collections::BTreeSet;

/// The names that were given so far, and the first offset at which one of them was given again.
#[derive(Drop)]
struct Seen {
    names: BTreeSet<u32>,
    repeat: Option<usize>,
}

impl Seen {
    /// Makes a state in which no name was given.
    fn new(alloc: Global) -> Seen
        ensures { HasSeen [] result }
    {
        Seen {
            names: BTreeSet::new(alloc),
            repeat: None,
        }
    }

    /// Notes that a name is given at an offset.
    fn note(&mut self, name: NameId, spot: usize) -> Result<(), AllocError>
        ensures { OnOk result (Notes self.old (given_id (Some name) spot) self.new) }
    {
        if !self.names.insert(name.0)? {
            self.repeat = Some(least_of(self.repeat, spot));
        }
        Ok(())
    }

    /// Notes that a name, if there is one, is given at an offset.
    fn note_if_named(&mut self, name: Option<NameId>, spot: usize) -> Result<(), AllocError>
        ensures { OnOk result (Notes self.old (given_id name spot) self.new) }
    {
        match name {
            Some(name) => self.note(name, spot),
            None => Ok(()),
        }
    }

    /// Notes the names of parameters, which are given at the offset of their function.
    fn note_params(&mut self, params: &[Param], spot: usize) -> Result<(), AllocError>
        ensures { OnOk result (Notes self.old (ids_of_params spot params.now) self.new) }
    {
        for param in params {
            self.note_if_named(param.name, spot)?;
        }
        Ok(())
    }

    /// Notes the names of the results of instructions, each of which is given at its own offset.
    fn note_insts(&mut self, insts: &[Inst], spots: &[usize]) -> Result<(), AllocError>
        requires spotted { length spots.now ≡ length insts.now }
        ensures { OnOk result (Notes self.old (ids_of_insts insts.now spots.now) self.new) }
    {
        for at in 0..insts.len() {
            self.note_if_named(insts[at].result, spots[at])?;
        }
        Ok(())
    }

    /// Notes the labels of blocks, which are given at the offset of their function, and the names of
    /// results.
    fn note_blocks(
        &mut self,
        blocks: &[Block],
        spot: usize,
        spots: &[Vec<usize>],
    ) -> Result<(), AllocError>
        requires spotted { map (λ s. length s.items) spots.now
            ≡ map (λ b. length b.insts.items) blocks.now }
        ensures { OnOk result (Notes self.old (ids_of_blocks spot blocks.now spots.now) self.new) }
    {
        for at in 0..blocks.len() {
            let block = &blocks[at];
            self.note(block.name, spot)?;
            self.note_insts(&block.insts, &spots[at])?;
        }
        Ok(())
    }
}

/// Returns the first offset at which a function gives a name a second time, by the offsets of the function
/// and, block by block, of its instructions.
fn repeat_in(
    alloc: Global,
    f: &Function,
    spot: usize,
    spots: &[Vec<usize>],
) -> Result<Option<usize>, AllocError>
    requires spotted { map (λ s. length s.items) spots.now
        ≡ map (λ b. length b.insts.items) f.now.blocks.items }
    ensures { IfOk result (IsFirst (IsGivenAgain (given_ids f.now spot spots.now))) }
{
    let mut seen = Seen::new(alloc);
    seen.note_params(&f.params, spot)?;
    seen.note_blocks(&f.blocks, spot, spots)?;
    Ok(seen.repeat)
}

/// Returns the first offset at which a function gives a name a second time.
///
/// The time is that of sorting the names that each function gives.
pub fn first_repeat(alloc: Global, p: &Parsed) -> Result<Option<usize>, AllocError>
    requires known { module_known p.now.«module» ≡ true }
    ensures { IfOk result (IsFirst (RepeatFault p.now)) }
{
    let _names = p.module.names.len();
    let mut first = None;
    for at in 0..p.module.functions.len() {
        let repeat = repeat_in(
            alloc,
            &p.module.functions[at],
            p.spots.functions[at],
            &p.spots.insts[at],
        )?;
        first = first_of(first, repeat);
    }
    Ok(first)
}
