//! The values of a function by number, and what its names stand for in it.

ghost use Rattle.std.specs.Prelude.{◌≡◌, ◌↔◌, ℕ, List, [], true, IsTrue, length, map, Some, IfOk, IfSome, slice_get};
ghost use Rattle.std.specs.Option.{option_map};
ghost use Rattle.std.specs.List.{IsDistinct};
ghost use Rattle.std.specs.Str.{bytes_eq};
ghost use Rattle.ir_tree.specs.NameTable.{text_of, IsKnown};
ghost use Rattle.ir_tree.specs.Known.{function_known};
ghost use Rattle.ir_tree.specs.ShapeOf.{function_shape};
ghost use Rattle.ir_tree.specs.declared.module.Function.{Function};
ghost use Rattle.ir_rules.specs.Values.{values, value_of, block_of, value_ty};
ghost use Rattle.ir_names.specs.Results.{result_shape, IsKnownResult};
ghost use Rattle.ir_names.specs.Tables.{AreNamesIn};

use crate::firsts::first_of_some;
use crate::results::{ResultTy, type_of_site};
use crate::values::{Value, values_of};
use ir_rules::Site;
use ir_tree::module::{Block, Function};
use ir_tree::names::NameId;
use std::alloc::{AllocError, Global};
use std::collections::BTreeMap;
use std::marker::Model;

/// The values of a function by number, and what its names stand for in it.
#[derive(Drop)]
pub struct FunctionNames {
    sites: Vec<Site>,
    value_of: BTreeMap<u32, usize>,
    block_of: BTreeMap<u32, usize>,
}

impl Model for FunctionNames {
    ghost use Rattle.ir_names.specs.Tables.{FunctionTable};

    ghost Value = { FunctionTable };

    ghost view = { λ n. record {
      sites = n.sites.items;
      values = n.value_of.entries;
      blocks = n.block_of.entries;
    } };
}

impl FunctionNames {
    /// Enters the values and the blocks of a function. The time is that of sorting its names.
    pub fn of_function(alloc: Global, f: &Function) -> Result<FunctionNames, AllocError>
        ensures { IfOk result (λ t. (names : List (List ℕ)) → IsDistinct bytes_eq names →
            function_known (length names) f.now ≡ true → AreNamesIn names f.now t) }
    {
        let values = values_of(alloc, f)?;
        let value_ids = value_ids(alloc, &values)?;
        let block_ids = block_ids(alloc, &f.blocks)?;
        Ok(FunctionNames {
            sites: sites(alloc, &values)?,
            value_of: first_of_some(alloc, &value_ids)?,
            block_of: first_of_some(alloc, &block_ids)?,
        })
    }

    /// Returns how many values the function has.
    pub fn len(&self) -> usize
        ensures { (names : List (List ℕ)) (f : Function) → AreNamesIn names f self.now →
            result ≡ length (values (function_shape names f)) }
    {
        self.sites.len()
    }

    /// Tells whether the function has no values.
    pub fn is_empty(&self) -> bool
        ensures { (names : List (List ℕ)) (f : Function) → AreNamesIn names f self.now →
            IsTrue result ↔ (values (function_shape names f) ≡ []) }
    {
        self.sites.is_empty()
    }

    /// Returns which value a name stands for.
    pub fn value_of(&self, id: NameId) -> Option<usize>
        ensures { (names : List (List ℕ)) (f : Function) → AreNamesIn names f self.now →
            IsKnown names id.0 → result ≡ value_of (function_shape names f) (text_of names id.0) }
    {
        self.value_of.get(&id.0).copied()
    }

    /// Returns which block a name stands for.
    pub fn block_of(&self, id: NameId) -> Option<usize>
        ensures { (names : List (List ℕ)) (f : Function) → AreNamesIn names f self.now →
            IsKnown names id.0 → result ≡ block_of (function_shape names f) (text_of names id.0) }
    {
        self.block_of.get(&id.0).copied()
    }

    /// Returns what gives the value of a number, if there is one.
    pub fn site_of(&self, value: usize) -> Option<Site>
        ensures { (names : List (List ℕ)) (f : Function) → AreNamesIn names f self.now →
            result ≡ option_map (λ v. v.site) (slice_get (values (function_shape names f)) value) }
    {
        self.sites.get(value).copied()
    }

    /// Returns the type of the value that a name stands for, where these are the names of the function.
    pub fn type_of<'a>(&self, f: &'a Function, id: NameId) -> Option<ResultTy<'a>>
        ensures shape { (names : List (List ℕ)) → AreNamesIn names f.now self.now →
            IsKnown names id.0 → option_map (result_shape names) result
            ≡ value_ty (function_shape names f.now) (text_of names id.0) }
        ensures known { (count : ℕ) → function_known count f.now ≡ true →
            IfSome result (IsKnownResult count) }
    {
        match self.value_of(id) {
            Some(value) => match self.site_of(value) {
                Some(site) => type_of_site(f, site),
                None => None,
            },
            None => None,
        }
    }
}

/// Returns the names of values.
fn value_ids(alloc: Global, values: &[Value]) -> Result<Vec<Option<NameId>>, AllocError>
    ensures { IfOk result (λ ids. ids.items ≡ map (λ v. v.name) values.now) }
{
    values.iter().map(|v| v.name).collect(alloc)
}

/// Returns the names of blocks.
fn block_ids(alloc: Global, blocks: &[Block]) -> Result<Vec<Option<NameId>>, AllocError>
    ensures { IfOk result (λ ids. ids.items ≡ map (λ b. Some b.name) blocks.now) }
{
    let mut ids = Vec::new(alloc);
    for block in blocks {
        ids.push(Some(block.name))?;
    }
    Ok(ids)
}

/// Returns what gives values.
fn sites(alloc: Global, values: &[Value]) -> Result<Vec<Site>, AllocError>
    ensures { IfOk result (λ sites. sites.items ≡ map (λ v. v.site) values.now) }
{
    values.iter().map(|v| v.site).collect(alloc)
}
