//! What the names of a module open to.

ghost use Rattle.std.specs.Prelude.{◌≡◌, ◌<◌, List, [], ℕ, pos, length, slice_get, true, IfSome, IfNone, IfOk, is_some};
ghost use Rattle.std.specs.Bool.{OnTrue, OnFalse};
ghost use Rattle.ir_tree.specs.Known.{module_known, ty_known};
ghost use Rattle.ir_tree.specs.Shape.{TyShape};
ghost use Rattle.ir_tree.specs.ShapeOf.{module_shape, ty_shape};
ghost use Rattle.ir_tree.specs.declared.types.Ty.{out-Ty};
ghost use Rattle.ir_layout.specs.Tables.{AreFirst};
ghost use Rattle.ir_rules.specs.Constants.{Opens, StepsBy};
ghost use Rattle.ir_openings.specs.Openings.{AreSoundOpenings, AreOpenings, AreStuck, opening_in, layer_opening, name_opening, new_opening, with_opening, count_empty};

use crate::chains::push_chain;
use ir_layout::first_types;
use ir_tree::module::{Module, NamedTy};
use ir_tree::names::NameId;
use ir_tree::types::Ty;
use std::alloc::{AllocError, Global};
use std::marker::Model;

/// Which named type each name of a module opens to: the one at the end of its chain of names, whose type is
/// an array or a structure.
#[derive(Drop)]
pub struct Openings {
    of_name: Vec<Option<usize>>,
}

impl Model for Openings {
    ghost use Rattle.std.specs.Prelude.{List, Option, ℕ};

    ghost Value = { List (Option ℕ) };

    ghost view = { λ t. t.of_name.items };
}

impl Openings {
    /// Finds what the names of a module open to. The time is linear in the module's names and named types.
    pub fn of_module(alloc: Global, m: &Module) -> Result<Openings, AllocError>
        requires known { module_known m.now ≡ true }
        ensures whole { IfOk result (λ openings. AreOpenings m.now openings) }
    {
        let count = m.names.len();
        let first = first_types(alloc, &m.types, count)?;
        let mut of_name = vec![in alloc; None; count]?;
        enter_chains(alloc, m, &first, &mut of_name)?;
        while enter_all(m, &first, &mut of_name) {}
        Ok(Openings { of_name })
    }

    /// Returns the array or structure type that a type is, by the types that names stand for.
    pub fn opened<'a>(&self, m: &'a Module, ty: &'a Ty) -> Option<&'a Ty>
        requires openings { AreOpenings m.now self.now }
        requires known { ty_known (length m.now.names) ty.now ≡ true }
        ensures opens { IfSome result (λ u. Opens (module_shape m.now).types
            (ty_shape m.now.names ty.now) (ty_shape m.now.names u.now)) }
        ensures known { IfSome result (λ u. ty_known (length m.now.names) u.now ≡ true) }
        ensures none { IfNone result ((u : TyShape) →
            Opens (module_shape m.now).types (ty_shape m.now.names ty.now) u → ⊥) }
    {
        let types = m.types.as_slice();
        match ty {
            Ty::Array(_, _) | Ty::Struct(_, _) => Some(ty),
            Ty::Named(id) => match named_opening(&self.of_name, *id) {
                Some(at) => Some(&types[at].ty),
                None => None,
            },
            _ => None,
        }
    }

    /// Returns which named type a name opens to, if it opens to one: the one at the end of its chain of names.
    pub fn number_of(&self, id: NameId) -> Option<usize>
        ensures { result ≡ opening_in self.now id.0 }
    {
        named_opening(&self.of_name, id)
    }

    /// Returns the type that an index leads to from a type, by its number if it has one: that of an array's
    /// elements, or of the structure's field with this number.
    pub fn step<'a>(&self, m: &'a Module, ty: &'a Ty, number: Option<i128>) -> Option<&'a Ty>
        requires openings { AreOpenings m.now self.now }
        requires known { ty_known (length m.now.names) ty.now ≡ true }
        ensures steps { IfSome result (λ u. StepsBy (module_shape m.now).types number
            (ty_shape m.now.names ty.now) (ty_shape m.now.names u.now)) }
        ensures known { IfSome result (λ u. ty_known (length m.now.names) u.now ≡ true) }
        ensures none { IfNone result ((u : TyShape) →
            StepsBy (module_shape m.now).types number (ty_shape m.now.names ty.now) u → ⊥) }
    {
        match self.opened(m, ty) {
            Some(opened) => part_at(opened, number),
            None => None,
        }
    }
}

/// Returns the type that an index leads to from a type that is an array or a structure itself.
fn part_at(ty: &Ty, number: Option<i128>) -> Option<&Ty>
    ensures steps { (names : List (List ℕ)) → IfSome result (λ u.
        StepsBy [] number (ty_shape names ty.now) (ty_shape names u.now)) }
    ensures known { (n : ℕ) → ty_known n ty.now ≡ true →
        IfSome result (λ u. ty_known n u.now ≡ true) }
    ensures none { (names : List (List ℕ)) → IfNone result ((u : TyShape) →
        StepsBy [] number (ty_shape names ty.now) u → ⊥) }
{
    match ty {
        Ty::Array(_, element) => Some(element),
        Ty::Struct(fields, _) => field_at(fields, number),
        _ => None,
    }
}

/// Returns the field with a number.
fn field_at(fields: &[Ty], number: Option<i128>) -> Option<&Ty>
    ensures found { IfSome result (λ u. (k : ℕ) × (number ≡ Some (pos k))
        × (slice_get fields.now k ≡ Some u.now)) }
    ensures none { IfNone result ((k : ℕ) → number ≡ Some (pos k) → slice_get fields.now k ≡ None) }
{
    let index = usize::try_from(number?).ok()?;
    fields.get(index)
}

/// Returns what a table has for a name.
fn named_opening(openings: &[Option<usize>], id: NameId) -> Option<usize>
    ensures { result ≡ opening_in openings.now id.0 }
{
    match openings.get(id.0 as usize) {
        Some(opening) => *opening,
        None => None,
    }
}

/// Returns what the type of the named type with a number opens to, by a table.
fn item_opening(openings: &[Option<usize>], at: usize, ty: &Ty) -> Option<usize>
    ensures { result ≡ layer_opening openings.now at (out-Ty ty.now) }
{
    match ty {
        Ty::Array(_, _) | Ty::Struct(_, _) => Some(at),
        Ty::Named(next) => named_opening(openings, *next),
        _ => None,
    }
}

/// Returns what a name opens to by the others in a table.
fn opening_of(
    types: &[NamedTy],
    first: &[Option<usize>],
    openings: &[Option<usize>],
    id: usize,
) -> Option<usize>
    requires first { AreFirst types.now first.now }
    requires within { id < length first.now }
    ensures { result ≡ name_opening types.now openings.now id }
{
    match first[id] {
        Some(at) => item_opening(openings, at, &types[at].ty),
        None => None,
    }
}

/// Enters what a name opens to, if the table has nothing for it yet. Returns whether something was entered.
fn enter(
    types: &[NamedTy],
    first: &[Option<usize>],
    openings: &mut [Option<usize>],
    id: usize,
) -> bool
    requires first { AreFirst types.now first.now }
    requires long { length openings.old ≡ length first.now }
    requires within { id < length openings.old }
    ensures entered { result ≡ is_some (new_opening types.now openings.old id) }
    ensures openings { openings.new
        ≡ with_opening openings.old id (new_opening types.now openings.old id) }
{
    if openings[id].is_some() {
        return false;
    }
    match opening_of(types, first, openings, id) {
        None => false,
        Some(at) => {
            openings[id] = Some(at);
            true
        }
    }
}

/// Enters what the names of a chain open to, the last name first, and empties the chain.
fn enter_chain(
    m: &Module,
    first: &[Option<usize>],
    chain: &mut Vec<usize>,
    openings: &mut [Option<usize>],
)
    requires first { AreFirst m.now.types.items first.now }
    requires long { length openings.old ≡ length first.now }
    requires sound { AreSoundOpenings m.now openings.old }
    ensures sound { AreSoundOpenings m.now openings.new }
{
    while let Some(id) = chain.pop() {
        if id < openings.len() {
            let _ = enter(&m.types, first, openings, id);
        }
    }
}

/// Enters what names open to, chain by chain, so that each name comes after the one that it stands for.
fn enter_chains(
    alloc: Global,
    m: &Module,
    first: &[Option<usize>],
    openings: &mut [Option<usize>],
) -> Result<(), AllocError>
    requires first { AreFirst m.now.types.items first.now }
    requires long { length openings.old ≡ length first.now }
    requires sound { AreSoundOpenings m.now openings.old }
    ensures sound { AreSoundOpenings m.now openings.new }
{
    let mut seen = vec![in alloc; false; first.len()]?;
    let mut chain = Vec::new(alloc);
    for id in 0..first.len() {
        push_chain(&m.types, first, id, &mut seen, &mut chain)?;
        enter_chain(m, first, &mut chain, openings);
    }
    Ok(())
}

/// Enters what each name opens to for which the table has nothing yet. Returns whether something was entered.
fn enter_all(m: &Module, first: &[Option<usize>], openings: &mut [Option<usize>]) -> bool
    requires first { AreFirst m.now.types.items first.now }
    requires long { length openings.old ≡ length first.now }
    requires sound { AreSoundOpenings m.now openings.old }
    ensures sound { AreSoundOpenings m.now openings.new }
    ensures fewer { OnTrue result (count_empty openings.new < count_empty openings.old) }
    ensures stuck { OnFalse result (AreStuck m.now.types.items openings.new (length openings.new)) }
{
    let mut entered = false;
    for id in 0..openings.len() {
        if enter(&m.types, first, openings, id) {
            entered = true;
        }
    }
    entered
}
