//! Layouts of types that have one, and where the fields of structures begin.

ghost use Rattle.std.specs.Prelude.{◌≡◌, ◌≤◌, length, map, true, IfOk};
ghost use Rattle.std.specs.List.{list_all, AllByRecursion};
ghost use Rattle.ir_tree.specs.Known.{module_known, ty_known};
ghost use Rattle.ir_tree.specs.ShapeOf.{module_shape, ty_shape};
ghost use Rattle.ir_layout.specs.Layout.{most_size, fields_end};
ghost use Rattle.ir_layout.specs.Rules.{IsSized};
ghost use Rattle.ir_layout.specs.Tables.{IsWholeTable};
ghost use Rattle.ir_program.specs.Sizes.{layout_of};
ghost use Rattle.program_steps.specs.Laid.{starts_from};

use ir_layout::{Layout, Layouts, field_end, field_start};
use ir_tree::module::Module;
use ir_tree::types::Ty;
use std::alloc::{AllocError, Global};

/// Returns the layout of a type that has one.
pub fn layout_at(m: &Module, layouts: &Layouts, ty: &Ty) -> Layout
    requires known { module_known m.now ≡ true }
    requires table { IsWholeTable m.now layouts.now }
    requires names { ty_known (length m.now.names) ty.now ≡ true }
    requires sized { IsSized (module_shape m.now).types (ty_shape m.now.names ty.now) }
    ensures { result ≡ layout_of (module_shape m.now).types (ty_shape m.now.names ty.now) }
{
    layouts.layout_of(ty).unwrap()
}

/// Returns where each field of a structure begins.
pub fn starts_of(
    alloc: Global,
    m: &Module,
    layouts: &Layouts,
    fields: &[Ty],
    packed: bool,
) -> Result<Vec<u64>, AllocError>
    requires known { module_known m.now ≡ true }
    requires table { IsWholeTable m.now layouts.now }
    requires names { list_all (ty_known (length m.now.names)) fields.now ≡ true }
    requires sized { AllByRecursion
        (λ t. IsSized (module_shape m.now).types (ty_shape m.now.names t)) fields.now }
    requires small { fields_end packed 0
        (map (λ t. layout_of (module_shape m.now).types (ty_shape m.now.names t)) fields.now)
        ≤ most_size }
    ensures { IfOk result (λ starts. starts.items ≡ starts_from packed 0
        (map (λ t. layout_of (module_shape m.now).types (ty_shape m.now.names t)) fields.now)) }
{
    let mut starts = Vec::new(alloc);
    let mut at: u128 = 0;
    for field in fields {
        let layout = layout_at(m, layouts, field);
        starts.push(field_start(packed, at, layout) as u64)?;
        at = field_end(packed, at, layout);
    }
    Ok(starts)
}
