//! The layouts of the named types of a module.

ghost use Rattle.std.specs.Prelude.{◌≡◌, ◌↔◌, ◌+◌, ◌<◌, ◌≤◌, List, ℕ, length, map, take, true, Some, IfOk, is_some};
ghost use Rattle.std.specs.List.{list_all};
ghost use Rattle.std.specs.Bool.{OnTrue, OnFalse};
ghost use Rattle.ir_tree.specs.Known.{module_known, ty_known};
ghost use Rattle.ir_tree.specs.Shape.{ty_row};
ghost use Rattle.ir_tree.specs.ShapeOf.{module_shape, ty_shape};
ghost use Rattle.ir_tree.specs.declared.module.Module.{Module};
ghost use Rattle.ir_layout.specs.declared.sizes.Layout.{Layout};
ghost use Rattle.ir_layout.specs.Layout.{most_size, structure_layout, field_offset};
ghost use Rattle.ir_layout.specs.Rules.{HasLayout, HaveLayouts};
ghost use Rattle.ir_layout.specs.Tables.{AreFirst, AreStuck, IsSoundTable, IsWholeTable, new_layout, with_layout, count_empty};

use crate::order::{first_types, names_in_order, type_of};
use crate::sizes::Layout;
use crate::types::{layout_in, offset_in};
use ir_tree::module::{Module, NamedTy};
use ir_tree::types::Ty;
use std::alloc::{AllocError, Global};
use std::marker::Model;

/// The layouts of the named types of a module.
#[derive(Drop)]
pub struct Layouts {
    of_name: Vec<Option<Layout>>,
}

impl Model for Layouts {
    ghost use Rattle.std.specs.Prelude.{List, Option};
    ghost use Rattle.ir_layout.specs.declared.sizes.Layout.{Layout};

    ghost Value = { List (Option Layout) };

    ghost view = { λ t. t.of_name.items };
}

impl Layouts {
    /// Lays out the named types of a module. The time is linear in the module's types and names.
    pub fn of_module(alloc: Global, m: &Module) -> Result<Layouts, AllocError>
        requires known { module_known m.now ≡ true }
        ensures whole { IfOk result (λ layouts. IsWholeTable m.now layouts) }
    {
        let count = m.names.len();
        let first = first_types(alloc, &m.types, count)?;
        let order = names_in_order(alloc, &m.types, &first)?;
        let mut of_name = vec![in alloc; None; count]?;
        enter_in_order(m, &first, &order, &mut of_name);
        while enter_all(m, &first, &mut of_name) {}
        Ok(Layouts { of_name })
    }

    /// Returns the layout of a type, or `None` where the type has none.
    pub fn layout_of(&self, ty: &Ty) -> Option<Layout>
        ensures { (m : Module) → module_known m ≡ true → IsWholeTable m self.now →
            ty_known (length m.names) ty.now ≡ true → (l : Layout) →
            (result ≡ Some l) ↔ HasLayout (module_shape m).types (ty_shape m.names ty.now) l }
    {
        layout_in(&self.of_name, ty)
    }

    /// Returns where the field of a number begins in a structure of these fields, or `None` where one of the
    /// fields up to it has no layout, or they are too great. In a structure that has a layout each field has
    /// its place.
    pub fn offset_of(&self, fields: &[Ty], packed: bool, index: usize) -> Option<u64>
        ensures found { (m : Module) → module_known m ≡ true → IsWholeTable m self.now →
            list_all (ty_known (length m.names)) fields.now ≡ true → (at : ℕ) → result ≡ Some at →
            (ls : List Layout) × (at ≡ field_offset packed 0 ls index)
            × HaveLayouts (module_shape m).types
            (ty_row (map (ty_shape m.names) (take (index + 1) fields.now))) ls }
        ensures all { (m : Module) → module_known m ≡ true → IsWholeTable m self.now →
            list_all (ty_known (length m.names)) fields.now ≡ true → (ls : List Layout) →
            HaveLayouts (module_shape m).types (ty_row (map (ty_shape m.names) fields.now)) ls →
            (structure_layout packed ls).size ≤ most_size → index < length ls →
            result ≡ Some (field_offset packed 0 ls index) }
    {
        offset_in(&self.of_name, fields, packed, index)
    }
}

/// Enters the layout of a name, if it has none yet and gets one. Returns whether it did.
fn enter(
    types: &[NamedTy],
    first: &[Option<usize>],
    layouts: &mut [Option<Layout>],
    id: usize,
) -> bool
    requires first { AreFirst types.now first.now }
    requires long { length layouts.old ≡ length first.now }
    requires within { id < length layouts.old }
    ensures entered { result ≡ is_some (new_layout types.now layouts.old id) }
    ensures layouts { layouts.new
        ≡ with_layout layouts.old id (new_layout types.now layouts.old id) }
{
    if layouts[id].is_some() {
        return false;
    }
    match type_of(types, first, id) {
        None => false,
        Some(ty) => match layout_in(layouts, ty) {
            None => false,
            Some(layout) => {
                layouts[id] = Some(layout);
                true
            }
        },
    }
}

/// Enters the layouts of names in an order. In the right order each name that has a layout gets it.
fn enter_in_order(
    m: &Module,
    first: &[Option<usize>],
    order: &[usize],
    layouts: &mut [Option<Layout>],
)
    requires known { module_known m.now ≡ true }
    requires first { AreFirst m.now.types.items first.now }
    requires long { length layouts.old ≡ length first.now }
    requires sound { IsSoundTable m.now layouts.old }
    ensures sound { IsSoundTable m.now layouts.new }
{
    for id in order {
        if *id < layouts.len() {
            let _ = enter(&m.types, first, layouts, *id);
        }
    }
}

/// Enters the layout of each name that has none yet and gets one. Returns whether there was such a name.
fn enter_all(m: &Module, first: &[Option<usize>], layouts: &mut [Option<Layout>]) -> bool
    requires known { module_known m.now ≡ true }
    requires first { AreFirst m.now.types.items first.now }
    requires long { length layouts.old ≡ length first.now }
    requires sound { IsSoundTable m.now layouts.old }
    ensures sound { IsSoundTable m.now layouts.new }
    ensures fewer { OnTrue result (count_empty layouts.new < count_empty layouts.old) }
    ensures stuck { OnFalse result (AreStuck m.now.types.items layouts.new (length layouts.new)) }
{
    let mut entered = false;
    for id in 0..layouts.len() {
        if enter(&m.types, first, layouts, id) {
            entered = true;
        }
    }
    entered
}
