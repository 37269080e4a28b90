//! The values of constants.

ghost use Rattle.std.specs.Prelude.{◌≡◌, ◌<◌, ◌^◌, List, ℕ, true, length, map, IfOk, IfSome};
ghost use Rattle.ir_tree.specs.NameTable.{IsKnown};
ghost use Rattle.ir_tree.specs.Known.{module_known, ty_known, const_known, typed_known};
ghost use Rattle.ir_tree.specs.Shape.{typed_row};
ghost use Rattle.ir_tree.specs.ShapeOf.{ty_shape, typed_shape, name_shape};
ghost use Rattle.ir_layout.specs.Rules.{IsSized};
ghost use Rattle.ir_rules.specs.Constants.{HasConst, AreNumbers, WalksBehind, row_numbers};
ghost use Rattle.ir_rules.specs.Things.{global_of};
ghost use Rattle.ir_model.specs.Pointers.{walked};
ghost use Rattle.ir_program.specs.Strides.{strides_of, scaled_only};
ghost use Rattle.ir_program.specs.Constants.{global_address, zero_of, rooms, row_indices, const_value, typed_value, row_values};
ghost use Rattle.ir_names.specs.Tables.{AreNamesOf};
ghost use Rattle.mem_cells.specs.Shapes.{value_shape};
ghost use Rattle.program_steps.specs.Steps.{AreTypesSized, names_of, types_of};
ghost use Rattle.program_consts.specs.Rooms.{AreGlobalsSized};
ghost use Rattle.program_consts.specs.Constants.{AreConstants, shape_of, ty_of, const_of};

use crate::indices::{indices_of, width_of};
use crate::rooms::block_sizes;
use crate::walks::walk;
use ir_names::ModuleNames;
use ir_tree::module::Module;
use ir_tree::names::NameId;
use ir_tree::types::{Const, Ty, Typed};
use ir_type_tests::bits_of;
use program_steps::TypeSteps;
use program_tables::{Pointer, Value};
use std::alloc::{AllocError, Global};

/// What the constants of a module stand for.
#[derive(Drop)]
pub struct Constants<'a> {
    /// The steps of indices into its types, and the layouts of types.
    pub steps: TypeSteps<'a>,
    /// What its names stand for.
    pub names: &'a ModuleNames,
    sizes: Vec<u64>,
}

/// The address of nothing.
const NULL: Value = Value::Address(Pointer {
    block: 0,
    offset: 0,
});

/// Returns the value of a type that is written without one: 0, or null.
fn zero_of(ty: &Ty) -> Value
    ensures { (names : List (List ℕ)) → value_shape result ≡ zero_of (ty_shape names ty.now) }
{
    match ty {
        Ty::Int(bits) => Value::Integer(*bits, 0),
        Ty::Ptr => NULL,
        Ty::Void | Ty::Array(..) | Ty::Struct(..) | Ty::Named(_) => Value::Poison,
    }
}

/// Returns the address of a global: block 0 is null's.
fn global_address(global: Option<usize>) -> Value
    requires { IfSome global (λ g. g < 2 ^ 63) }
    ensures { value_shape result ≡ global_address global }
{
    match global {
        Some(g) => Value::Address(Pointer {
            block: g as u64 + 1,
            offset: 0,
        }),
        None => Value::Poison,
    }
}

impl<'a> Constants<'a> {
    /// Lays out the types of a module and its globals. The time is linear in its types, names and globals.
    pub fn of_module(
        alloc: Global,
        module: &'a Module,
        names: &'a ModuleNames,
    ) -> Result<Constants<'a>, AllocError>
        requires known { module_known «module».now ≡ true }
        requires names { AreNamesOf «module».now names.now }
        requires sized { AreTypesSized «module».now }
        requires globals { AreGlobalsSized «module».now }
        ensures constants { IfOk result AreConstants }
        ensures same { IfOk result (λ c. c.steps.«module».now ≡ «module».now) }
    {
        let steps = TypeSteps::of_module(alloc, module)?;
        let sizes = block_sizes(alloc, &steps)?;
        Ok(Constants {
            steps,
            names,
            sizes,
        })
    }

    /// Returns the value that a constant of a type is.
    #[cycle(values)]
    pub fn value_of(&self, alloc: Global, ty: &Ty, c: &Const) -> Result<Value, AllocError>
        requires constants { AreConstants self.now }
        requires types { ty_known (length (names_of self.now.steps)) ty.now ≡ true }
        requires names { const_known (length (names_of self.now.steps)) c.now ≡ true }
        requires proper { HasConst (types_of self.now.steps)
            (const_of self.now c.now) (ty_of self.now ty.now) }
        ensures { IfOk result (λ v. value_shape v ≡
            const_value (shape_of self.now) (ty_of self.now ty.now) (const_of self.now c.now)) }
    {
        match c {
            Const::Int(value) => {
                let width = width_of(ty);
                Ok(Value::Integer(width, bits_of(width, *value)))
            }
            Const::Bool(value) => Ok(Value::Integer(1, u64::from(*value))),
            Const::Null => Ok(NULL),
            Const::Zero => Ok(zero_of(ty)),
            Const::Global(id) => Ok(self.address_of(*id)),
            Const::Undef | Const::Poison | Const::Text(_) | Const::Array(_) | Const::Struct(..) => {
                Ok(Value::Poison)
            }
            Const::Gep(inbounds, inner, base, indices) => {
                let start = self.typed_value(alloc, base)?;
                self.walk_from(alloc, start, *inbounds, inner, indices)
            }
        }
    }

    /// Returns the value that a constant is, of the type that is stated with it.
    #[cycle(values)]
    fn typed_value(&self, alloc: Global, typed: &Typed) -> Result<Value, AllocError>
        requires constants { AreConstants self.now }
        requires names { typed_known (length (names_of self.now.steps)) typed.now ≡ true }
        requires proper { HasConst (types_of self.now.steps)
            (const_of self.now typed.now.value) (ty_of self.now typed.now.ty) }
        ensures { IfOk result (λ v. value_shape v ≡
            typed_value (shape_of self.now) (typed_shape (names_of self.now.steps) typed.now)) }
    {
        self.value_of(alloc, &typed.ty, &typed.value)
    }

    /// Returns the address of the global that a name stands for.
    fn address_of(&self, id: NameId) -> Value
        requires constants { AreConstants self.now }
        requires name { IsKnown (names_of self.now.steps) id.0 }
        ensures { value_shape result ≡ global_address
            (global_of (shape_of self.now) (name_shape (names_of self.now.steps) id)) }
    {
        global_address(self.names.global_of(id))
    }

    /// Returns where steps by constants lead from a value.
    fn walk_from(
        &self,
        alloc: Global,
        start: Value,
        inbounds: bool,
        ty: &Ty,
        row: &[Typed],
    ) -> Result<Value, AllocError>
        requires constants { AreConstants self.now }
        requires names { ty_known (length (names_of self.now.steps)) ty.now ≡ true }
        requires sized { IsSized (types_of self.now.steps) (ty_of self.now ty.now) }
        requires numbers { AreNumbers
            (typed_row (map (typed_shape (names_of self.now.steps)) row.now)) }
        requires walks { WalksBehind (types_of self.now.steps) (ty_of self.now ty.now)
            (row_numbers (typed_row (map (typed_shape (names_of self.now.steps)) row.now))) }
        ensures { IfOk result (λ v. let m = shape_of self.now in
            let indices = typed_row (map (typed_shape (names_of self.now.steps)) row.now) in
            let strides = strides_of m.types (ty_of self.now ty.now) (row_indices indices) in
            value_shape v ≡ walked inbounds strides (rooms m) (value_shape start)
            (scaled_only strides (row_values m indices))) }
    {
        let indices = indices_of(alloc, row)?;
        let strides = self.steps.strides_of(alloc, ty, &indices)?;
        Ok(walk(&self.sizes, inbounds, &strides, start, &indices))
    }
}
