//! Types as indices step into them.

ghost use Rattle.std.specs.Prelude.{◌≡◌, length, map, true, IfOk};
ghost use Rattle.std.specs.List.{list_all, AllByRecursion};
ghost use Rattle.ir_tree.specs.Known.{module_known, ty_known};
ghost use Rattle.ir_tree.specs.ShapeOf.{module_shape, ty_shape};
ghost use Rattle.ir_layout.specs.Rules.{IsSized};
ghost use Rattle.ir_layout.specs.Tables.{IsWholeTable};
ghost use Rattle.program_steps.specs.Laid.{laid_of};
ghost use Rattle.program_steps.specs.LaidShapes.{laid_shape};

use crate::sizes::{layout_at, starts_of};
use ir_layout::Layouts;
use ir_tree::module::Module;
use ir_tree::names::NameId;
use ir_tree::types::Ty;
use std::alloc::{AllocError, Global};

/// A type with what steps into it need.
#[derive(Debug, Drop)]
pub enum Laid {
    /// A type that indices don't lead into.
    Plain,
    /// An array: the size of an element, and the element's type.
    Array(u64, Box<Laid>),
    /// A structure: where each field begins, and the types of the fields.
    Struct(Vec<u64>, Vec<Laid>),
    /// The type that a name stands for.
    Named(NameId),
}

/// Lays out a type.
#[cycle(laid)]
pub fn lay(alloc: Global, m: &Module, layouts: &Layouts, ty: &Ty) -> Result<Laid, AllocError>
    requires known { module_known m.now ≡ true }
    requires table { IsWholeTable m.now layouts.now }
    requires names { ty_known (length m.now.names) ty.now ≡ true }
    requires sized { IsSized (module_shape m.now).types (ty_shape m.now.names ty.now) }
    ensures { IfOk result (λ laid. laid_shape m.now.names laid
        ≡ laid_of (module_shape m.now).types (ty_shape m.now.names ty.now)) }
{
    match ty {
        Ty::Int(_) | Ty::Ptr | Ty::Void => Ok(Laid::Plain),
        Ty::Array(_, element) => {
            let size = layout_at(m, layouts, element).size;
            let inner = lay(alloc, m, layouts, element)?;
            Ok(Laid::Array(size, Box::new(alloc, inner)?))
        }
        Ty::Struct(fields, packed) => {
            let starts = starts_of(alloc, m, layouts, fields, *packed)?;
            let inner = lay_all(alloc, m, layouts, fields)?;
            Ok(Laid::Struct(starts, inner))
        }
        Ty::Named(id) => Ok(Laid::Named(*id)),
    }
}

/// Lays out types in a row.
#[cycle(laid)]
fn lay_all(
    alloc: Global,
    m: &Module,
    layouts: &Layouts,
    row: &[Ty],
) -> Result<Vec<Laid>, AllocError>
    requires known { module_known m.now ≡ true }
    requires table { IsWholeTable m.now layouts.now }
    requires names { list_all (ty_known (length m.now.names)) row.now ≡ true }
    requires sized { AllByRecursion
        (λ t. IsSized (module_shape m.now).types (ty_shape m.now.names t)) row.now }
    ensures { IfOk result (λ laid. map (laid_shape m.now.names) laid.items
        ≡ map (λ t. laid_of (module_shape m.now).types (ty_shape m.now.names t)) row.now) }
{
    let mut laid = Vec::new(alloc);
    for ty in row {
        laid.push(lay(alloc, m, layouts, ty)?)?;
    }
    Ok(laid)
}
