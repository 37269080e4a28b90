//! Whether types have a size, and whether many of one are small enough together.

ghost use Rattle.std.specs.Prelude.{◌≡◌, ◌↔◌, true, length, IsTrue};
ghost use Rattle.ir_tree.specs.Known.{module_known, ty_known};
ghost use Rattle.ir_tree.specs.ShapeOf.{module_shape, ty_shape};
ghost use Rattle.ir_tree.specs.declared.module.Module.{Module};
ghost use Rattle.ir_layout.specs.Rules.{IsSized};
ghost use Rattle.ir_layout.specs.Tables.{IsWholeTable};
ghost use Rattle.ir_rules.specs.Instructions.{HasRoom};
ghost use Rattle.ir_type_tests.specs.Parts.{AreSmall};

use ir_layout::{Layouts, MOST_SIZE};
use ir_tree::types::Ty;

/// Tells whether a type has a layout.
pub fn is_sized(layouts: &Layouts, ty: &Ty) -> bool
    ensures { (m : Module) → module_known m ≡ true → IsWholeTable m layouts.now →
        ty_known (length m.names) ty.now ≡ true →
        IsTrue result ↔ IsSized (module_shape m).types (ty_shape m.names ty.now) }
{
    layouts.layout_of(ty).is_some()
}

/// Tells whether so many values of a type are small enough together.
pub fn has_room(layouts: &Layouts, ty: &Ty, count: i128) -> bool
    ensures { (m : Module) → module_known m ≡ true → IsWholeTable m layouts.now →
        ty_known (length m.names) ty.now ≡ true →
        IsTrue result ↔ HasRoom (module_shape m).types (ty_shape m.names ty.now) count }
{
    match layouts.layout_of(ty) {
        Some(layout) => are_small(layout.size, count),
        None => false,
    }
}

/// Tells whether so many values of a size are small enough together.
fn are_small(size: u64, count: i128) -> bool
    ensures { IsTrue result ↔ AreSmall size count }
{
    if count < 0 {
        return false;
    }
    match (count as u128).checked_mul(size as u128) {
        Some(all) => all <= MOST_SIZE as u128,
        None => false,
    }
}
