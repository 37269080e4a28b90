//! The steps that indices take into the types of a module.

ghost use Rattle.std.specs.Prelude.{◌≡◌, ◌++◌, ℕ, List, length, map, true, IfOk, OnOk, IsSomeAnd, Some, pos, ◌<◌, slice_get, slice_index};
ghost use Rattle.ir_tree.specs.Known.{module_known, ty_known};
ghost use Rattle.ir_tree.specs.Shape.{TyShape};
ghost use Rattle.ir_tree.specs.ShapeOf.{module_shape, ty_shape};
ghost use Rattle.ir_model.specs.Pointers.{Field};
ghost use Rattle.ir_layout.specs.Rules.{IsSized};
ghost use Rattle.ir_layout.specs.Tables.{IsWholeTable};
ghost use Rattle.ir_rules.specs.Constants.{Opens, StepsBy, Walks, WalksBehind};
ghost use Rattle.ir_program.specs.Sizes.{layout_of};
ghost use Rattle.ir_program.specs.Strides.{strides_inside, strides_of};
ghost use Rattle.program_tables.specs.Shapes.{stride_shape};
ghost use Rattle.program_steps.specs.Laid.{laid_of};
ghost use Rattle.program_steps.specs.LaidShapes.{laid_shape};
ghost use Rattle.program_steps.specs.Steps.{AreTypesSized, AreTypeSteps, names_of, types_of, ty_in, index_shape, IsStep};

use crate::index::Index;
use crate::laid::{Laid, lay};
use crate::sizes::layout_at;
use ir_layout::{Layout, Layouts};
use ir_openings::Openings;
use ir_tree::module::Module;
use ir_tree::types::Ty;
use program_tables::Stride;
use std::alloc::{AllocError, Global};

/// The sizes of the types of a module, and where indices lead in them.
#[derive(Drop)]
pub struct TypeSteps<'a> {
    /// The module.
    pub module: &'a Module,
    /// The layouts of its types.
    pub layouts: Layouts,
    openings: Openings,
    laid: Vec<Laid>,
}

/// Lays out the named types of a module.
fn lay_named(alloc: Global, m: &Module, layouts: &Layouts) -> Result<Vec<Laid>, AllocError>
    requires known { module_known m.now ≡ true }
    requires table { IsWholeTable m.now layouts.now }
    requires sized { AreTypesSized m.now }
    ensures { IfOk result (λ laid. map (laid_shape m.now.names) laid.items
        ≡ map (λ t. laid_of (module_shape m.now).types (ty_shape m.now.names t.ty))
        m.now.types.items) }
{
    let mut laid = Vec::new(alloc);
    for named in &m.types {
        laid.push(lay(alloc, m, layouts, &named.ty)?)?;
    }
    Ok(laid)
}

/// Returns the step to the field with a number, and the field.
fn field_step<'a>(
    starts: &[u64],
    fields: &'a [Laid],
    number: Option<i128>,
) -> Option<(Stride, &'a Laid)>
    ensures { (k : ℕ) → number ≡ Some (pos k) → k < length starts.now → k < length fields.now →
        IsSomeAnd result (λ r. (stride_shape r.0 ≡ Field (slice_index starts.now k))
        × (slice_get fields.now k ≡ Some r.1.now)) }
{
    let index = usize::try_from(number?).ok()?;
    let offset = *starts.get(index)?;
    let field = fields.get(index)?;
    Some((Stride::Field { offset }, field))
}

impl<'a> TypeSteps<'a> {
    /// Lays out the types of a module. The time is linear in its types and names.
    pub fn of_module(alloc: Global, module: &'a Module) -> Result<TypeSteps<'a>, AllocError>
        requires known { module_known «module».now ≡ true }
        requires sized { AreTypesSized «module».now }
        ensures steps { IfOk result AreTypeSteps }
        ensures same { IfOk result (λ steps. steps.«module».now ≡ «module».now) }
    {
        let layouts = Layouts::of_module(alloc, module)?;
        let openings = Openings::of_module(alloc, module)?;
        let laid = lay_named(alloc, module, &layouts)?;
        Ok(TypeSteps {
            module,
            layouts,
            openings,
            laid,
        })
    }

    /// Returns the layout of a type that has one.
    pub fn layout_of(&self, ty: &Ty) -> Layout
        requires steps { AreTypeSteps self.now }
        requires names { ty_known (length (names_of self.now)) ty.now ≡ true }
        requires sized { IsSized (types_of self.now) (ty_in self.now ty.now) }
        ensures { result ≡ layout_of (types_of self.now) (ty_in self.now ty.now) }
    {
        layout_at(self.module, &self.layouts, ty)
    }

    /// Returns the array or the structure that a type is, by the types that names stand for.
    fn opened<'b>(&'b self, laid: &'b Laid) -> &'b Laid
        requires { AreTypeSteps self.now }
        ensures { (t u : TyShape) → laid_shape (names_of self.now) laid.now ≡ laid_of (types_of self.now) t →
            Opens (types_of self.now) t u →
            laid_shape (names_of self.now) result.now ≡ laid_of (types_of self.now) u }
    {
        let Laid::Named(id) = laid else {
            return laid;
        };
        match self.openings.number_of(*id) {
            Some(at) => &self.laid[at],
            None => laid,
        }
    }

    /// Returns the step of an index from a type, and the type that it leads to.
    fn step<'b>(&'b self, at: &'b Laid, index: Index) -> Option<(Stride, &'b Laid)>
        requires { AreTypeSteps self.now }
        ensures { (t u : TyShape) → laid_shape (names_of self.now) at.now ≡ laid_of (types_of self.now) t →
            IsSized (types_of self.now) t → StepsBy (types_of self.now) index.number t u →
            IsSomeAnd result (λ r. IsStep self.now t u index r.0 r.1.now) }
    {
        match self.opened(at) {
            Laid::Array(size, element) => {
                let stride = Stride::Scaled {
                    width: index.width,
                    size: *size,
                };
                Some((stride, element))
            }
            Laid::Struct(starts, fields) => field_step(starts, fields, index.number),
            Laid::Plain | Laid::Named(_) => None,
        }
    }

    /// Appends the steps of indices into a type, one after the other, as far as they lead.
    fn push_inside<'b>(
        &'b self,
        strides: &mut Vec<Stride>,
        start: &'b Laid,
        indices: &[Index],
    ) -> Result<(), AllocError>
        requires { AreTypeSteps self.now }
        ensures { (t : TyShape) → laid_shape (names_of self.now) start.now ≡ laid_of (types_of self.now) t →
            IsSized (types_of self.now) t →
            Walks (types_of self.now) t (map (λ i. i.number) indices.now) →
            OnOk result (map stride_shape strides.new.items ≡ map stride_shape strides.old.items
            ++ strides_inside (types_of self.now) t (map index_shape indices.now)) }
    {
        let mut at = start;
        for index in indices {
            let Some((stride, inside)) = self.step(at, *index) else {
                return Ok(());
            };
            strides.push(stride)?;
            at = inside;
        }
        Ok(())
    }

    /// Returns the steps of a `getelementptr` by a type.
    pub fn strides_of(
        &self,
        alloc: Global,
        ty: &Ty,
        indices: &[Index],
    ) -> Result<Vec<Stride>, AllocError>
        requires steps { AreTypeSteps self.now }
        requires names { ty_known (length (names_of self.now)) ty.now ≡ true }
        requires sized { IsSized (types_of self.now) (ty_in self.now ty.now) }
        requires walks { WalksBehind (types_of self.now) (ty_in self.now ty.now)
            (map (λ i. i.number) indices.now) }
        ensures { IfOk result (λ strides. map stride_shape strides.items
            ≡ strides_of (types_of self.now) (ty_in self.now ty.now)
            (map index_shape indices.now)) }
    {
        let mut strides = Vec::new(alloc);
        let Some((first, inner)) = indices.split_first() else {
            return Ok(strides);
        };
        strides.push(Stride::Scaled {
            width: first.width,
            size: self.layout_of(ty).size,
        })?;
        let start = lay(alloc, self.module, &self.layouts, ty)?;
        self.push_inside(&mut strides, &start, inner)?;
        Ok(strides)
    }
}
