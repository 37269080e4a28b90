//! Which names of a module are used and not there, and where the first one stands.

ghost use Rattle.std.specs.Prelude.{◌≡◌, ◌<◌, ℕ, true, length, IsSome, slice_get};
ghost use Rattle.ir_tree.specs.Known.{module_known};
ghost use Rattle.ir_rules.specs.Places.{type_at, global_at, declare_at, function_at, inst_at_place, spot_of};
ghost use Rattle.ir_rules.specs.Faults.{MissingFault, IsFirst};
ghost use Rattle.ir_names.specs.Tables.{AreNamesOf};
ghost use Rattle.ir_names.specs.Scopes.{AreScopesOf};
ghost use Rattle.ir_missing.specs.Missing.{IsMissing, InBlock, InFunction, earlier, block_spots};

use crate::bodies::body_there;
use crate::heads::{declare_there, global_there, head_there};
use crate::types::ty_there;
use ir_names::{ModuleNames, Scopes};
use ir_tree::parsed::Parsed;

/// Returns the earlier of two offsets, of those that there are.
fn earlier(one: Option<usize>, other: Option<usize>) -> Option<usize>
    ensures { result ≡ earlier one other }
{
    match one {
        None => other,
        Some(at) => match other {
            None => Some(at),
            Some(other) => Some(at.min(other)),
        },
    }
}

/// Returns where a named type stands, if a name that it uses isn't there.
fn missing_type(p: &Parsed, outside: &ModuleNames, k: usize) -> Option<usize>
    requires known { module_known p.now.module ≡ true }
    requires names { AreNamesOf p.now.module outside.now }
    requires within { k < length p.now.module.types.items }
    ensures { IsFirst (IsMissing p.now (type_at k)) result }
{
    if ty_there(outside, &p.module.types[k].ty) {
        None
    } else {
        Some(p.spots.types[k])
    }
}

/// Returns where the first named type stands that uses a name that isn't there.
fn first_missing_type(p: &Parsed, outside: &ModuleNames) -> Option<usize>
    requires known { module_known p.now.module ≡ true }
    requires names { AreNamesOf p.now.module outside.now }
    ensures { IsFirst (λ at. (k : ℕ) × IsMissing p.now (type_at k) at) result }
{
    let mut first = None;
    for k in 0..p.module.types.len() {
        first = earlier(first, missing_type(p, outside, k));
    }
    first
}

/// Returns where a global stands, if a name that it uses isn't there.
fn missing_global(p: &Parsed, outside: &ModuleNames, k: usize) -> Option<usize>
    requires known { module_known p.now.module ≡ true }
    requires names { AreNamesOf p.now.module outside.now }
    requires within { k < length p.now.module.globals.items }
    ensures { IsFirst (IsMissing p.now (global_at k)) result }
{
    if global_there(outside, &p.module.globals[k]) {
        None
    } else {
        Some(p.spots.globals[k])
    }
}

/// Returns where the first global stands that uses a name that isn't there.
fn first_missing_global(p: &Parsed, outside: &ModuleNames) -> Option<usize>
    requires known { module_known p.now.module ≡ true }
    requires names { AreNamesOf p.now.module outside.now }
    ensures { IsFirst (λ at. (k : ℕ) × IsMissing p.now (global_at k) at) result }
{
    let mut first = None;
    for k in 0..p.module.globals.len() {
        first = earlier(first, missing_global(p, outside, k));
    }
    first
}

/// Returns where a declared function stands, if a name that it uses isn't there.
fn missing_declare(p: &Parsed, outside: &ModuleNames, k: usize) -> Option<usize>
    requires known { module_known p.now.module ≡ true }
    requires names { AreNamesOf p.now.module outside.now }
    requires within { k < length p.now.module.declares.items }
    ensures { IsFirst (IsMissing p.now (declare_at k)) result }
{
    if declare_there(outside, &p.module.declares[k]) {
        None
    } else {
        Some(p.spots.declares[k])
    }
}

/// Returns where the first declared function stands that uses a name that isn't there.
fn first_missing_declare(p: &Parsed, outside: &ModuleNames) -> Option<usize>
    requires known { module_known p.now.module ≡ true }
    requires names { AreNamesOf p.now.module outside.now }
    ensures { IsFirst (λ at. (k : ℕ) × IsMissing p.now (declare_at k) at) result }
{
    let mut first = None;
    for k in 0..p.module.declares.len() {
        first = earlier(first, missing_declare(p, outside, k));
    }
    first
}

/// Returns where a defined function stands, if a name that its head uses isn't there.
fn missing_function(p: &Parsed, outside: &ModuleNames, k: usize) -> Option<usize>
    requires known { module_known p.now.module ≡ true }
    requires names { AreNamesOf p.now.module outside.now }
    requires within { k < length p.now.module.functions.items }
    ensures { IsFirst (IsMissing p.now (function_at k)) result }
{
    if head_there(outside, &p.module.functions[k]) {
        None
    } else {
        Some(p.spots.functions[k])
    }
}

/// Returns where the first defined function stands that uses a name in its head that isn't there.
fn first_missing_function(p: &Parsed, outside: &ModuleNames) -> Option<usize>
    requires known { module_known p.now.module ≡ true }
    requires names { AreNamesOf p.now.module outside.now }
    ensures { IsFirst (λ at. (k : ℕ) × IsMissing p.now (function_at k) at) result }
{
    let mut first = None;
    for k in 0..p.module.functions.len() {
        first = earlier(first, missing_function(p, outside, k));
    }
    first
}

/// Returns where an instruction stands, if a name that it uses isn't there.
fn missing_inst(p: &Parsed, scopes: &Scopes, f: usize, b: usize, i: usize) -> Option<usize>
    requires known { module_known p.now.module ≡ true }
    requires names { AreScopesOf p.now.module scopes.now }
    requires within { IsSome (spot_of p.now.spots (inst_at_place f b i)) }
    ensures { IsFirst (IsMissing p.now (inst_at_place f b i)) result }
{
    let inst = &p.module.functions[f].blocks[b].insts[i];
    if body_there(&scopes.module, &scopes.functions[f], &inst.body) {
        None
    } else {
        Some(p.spots.insts[f][b][i])
    }
}

/// Returns where the first instruction of a block stands that uses a name that isn't there.
fn first_missing_in_block(p: &Parsed, scopes: &Scopes, f: usize, b: usize) -> Option<usize>
    requires known { module_known p.now.module ≡ true }
    requires names { AreScopesOf p.now.module scopes.now }
    requires within { IsSome (block_spots p.now.spots f b) }
    ensures { IsFirst (InBlock p.now f b) result }
{
    let mut first = None;
    for i in 0..p.spots.insts[f][b].len() {
        first = earlier(first, missing_inst(p, scopes, f, b, i));
    }
    first
}

/// Returns where the first instruction of a function stands that uses a name that isn't there.
fn first_missing_in_function(p: &Parsed, scopes: &Scopes, f: usize) -> Option<usize>
    requires known { module_known p.now.module ≡ true }
    requires names { AreScopesOf p.now.module scopes.now }
    requires within { f < length p.now.spots.insts.items }
    ensures { IsFirst (InFunction p.now f) result }
{
    let mut first = None;
    for b in 0..p.spots.insts[f].len() {
        first = earlier(first, first_missing_in_block(p, scopes, f, b));
    }
    first
}

/// Returns where the first instruction stands that uses a name that isn't there.
fn first_missing_inst(p: &Parsed, scopes: &Scopes) -> Option<usize>
    requires known { module_known p.now.module ≡ true }
    requires names { AreScopesOf p.now.module scopes.now }
    ensures { IsFirst (λ at. (f : ℕ) × InFunction p.now f at) result }
{
    let mut first = None;
    for f in 0..p.spots.insts.len() {
        first = earlier(first, first_missing_in_function(p, scopes, f));
    }
    first
}

/// Returns the first offset of an item or an instruction that uses a name that isn't there.
pub fn first_missing(p: &Parsed, scopes: &Scopes) -> Option<usize>
    requires known { module_known p.now.module ≡ true }
    requires names { AreScopesOf p.now.module scopes.now }
    ensures { IsFirst (MissingFault p.now) result }
{
    let first = first_missing_type(p, &scopes.module);
    let first = earlier(first, first_missing_global(p, &scopes.module));
    let first = earlier(first, first_missing_declare(p, &scopes.module));
    let first = earlier(first, first_missing_function(p, &scopes.module));
    earlier(first, first_missing_inst(p, scopes))
}
