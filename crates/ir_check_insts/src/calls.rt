//! Calls.

ghost use Rattle.std.specs.Prelude.{◌≡◌, ◌↔◌, true, map, IsTrue, IfSome, slice_get, option_copied};
ghost use Rattle.std.specs.List.{list_all};
ghost use Rattle.ir_tree.specs.Known.{ty_known, ty_val_known, param_known, function_known, declare_known};
ghost use Rattle.ir_tree.specs.Shape.{call};
ghost use Rattle.ir_tree.specs.ShapeOf.{param_shape};
ghost use Rattle.ir_rules.specs.Instructions.{IsWellTyped};
ghost use Rattle.ir_check_insts.specs.Surroundings.{names_of, around_shape, count_of, ty_in, val_in, ty_val_in, KnowsTy, KnowsVal, IsAround};
ghost use Rattle.ir_check_insts.specs.Calls.{callee_in, IsCalledBy, defined_signature, declared_signature, HasTypes, CallsWith};

use crate::around::Around;
use ir_rules::Callee;
use ir_same::same_ty;
use ir_tree::module::{Declare, Function, Param, TyVal, Val};
use ir_tree::types::{Const, Ty};

impl<'a> Around<'a> {
    /// Returns which function an operand calls, if it is a name that may be called.
    fn callee(&self, val: &Val) -> Option<Callee>
        requires around { IsAround self.now }
        requires known { KnowsVal self.now val.now }
        ensures { result ≡ callee_in (around_shape self.now) (val_in self.now val.now) }
    {
        match val {
            Val::Fixed(Const::Global(id)) => self.names.callee_of(*id),
            _ => None,
        }
    }

    /// Tells whether arguments are stated to have the types of parameters.
    fn are_of_params(&self, arguments: &[TyVal], params: &[Param]) -> bool
        requires around { IsAround self.now }
        requires known { list_all (ty_val_known (count_of self.now)) arguments.now ≡ true }
        requires param_names { list_all (param_known (count_of self.now)) params.now ≡ true }
        ensures { IsTrue result ↔ (map (λ x. x.ty) (map (ty_val_in self.now) arguments.now)
            ≡ map (λ p. p.ty) (map (param_shape (names_of self.now)) params.now)) }
    {
        if arguments.len() != params.len() {
            return false;
        }
        for (i, argument) in arguments.iter().enumerate() {
            let param = &params[i];
            if !same_ty(&argument.ty, &param.ty) {
                return false;
            }
        }
        true
    }

    /// Tells whether arguments are stated to have these types.
    fn are_of_types(&self, arguments: &[TyVal], types: &[Ty]) -> bool
        requires around { IsAround self.now }
        requires known { list_all (ty_val_known (count_of self.now)) arguments.now ≡ true }
        requires ty_names { list_all (ty_known (count_of self.now)) types.now ≡ true }
        ensures { IsTrue result ↔ (map (λ x. x.ty) (map (ty_val_in self.now) arguments.now)
            ≡ map (ty_in self.now) types.now) }
    {
        if arguments.len() != types.len() {
            return false;
        }
        for (i, argument) in arguments.iter().enumerate() {
            if !same_ty(&argument.ty, &types[i]) {
                return false;
            }
        }
        true
    }

    /// Returns the defined function of a number.
    fn defined(&self, number: usize) -> Option<&'a Function>
        requires { IsAround self.now }
        ensures found { option_copied result
            ≡ slice_get self.now.module.now.functions.items number }
        ensures known { IfSome result (λ f. function_known (count_of self.now) f.now ≡ true) }
    {
        self.module.functions.get(number)
    }

    /// Returns the declared function of a number.
    fn declared(&self, number: usize) -> Option<&'a Declare>
        requires { IsAround self.now }
        ensures found { option_copied result
            ≡ slice_get self.now.module.now.declares.items number }
        ensures known { IfSome result (λ d. declare_known (count_of self.now) d.now ≡ true) }
    {
        self.module.declares.get(number)
    }

    /// Tells whether a defined function has the types of a call.
    fn defined_has(&self, f: &Function, ret: &Ty, arguments: &[TyVal]) -> bool
        requires around { IsAround self.now }
        requires function_names { function_known (count_of self.now) f.now ≡ true }
        requires ret_names { KnowsTy self.now ret.now }
        requires known { list_all (ty_val_known (count_of self.now)) arguments.now ≡ true }
        ensures { IsTrue result ↔ IsCalledBy (defined_signature (names_of self.now) f.now)
            (ty_in self.now ret.now) (map (λ x. x.ty) (map (ty_val_in self.now) arguments.now)) }
    {
        same_ty(ret, &f.ret) && self.are_of_params(arguments, &f.params)
    }

    /// Tells whether a declared function has the types of a call.
    fn declared_has(&self, d: &Declare, ret: &Ty, arguments: &[TyVal]) -> bool
        requires around { IsAround self.now }
        requires declare_names { declare_known (count_of self.now) d.now ≡ true }
        requires ret_names { KnowsTy self.now ret.now }
        requires known { list_all (ty_val_known (count_of self.now)) arguments.now ≡ true }
        ensures { IsTrue result ↔ IsCalledBy (declared_signature (names_of self.now) d.now)
            (ty_in self.now ret.now) (map (λ x. x.ty) (map (ty_val_in self.now) arguments.now)) }
    {
        same_ty(ret, &d.ret) && self.are_of_types(arguments, &d.params)
    }

    /// Tells whether a function has the types of a call.
    fn has_types(&self, callee: Callee, ret: &Ty, arguments: &[TyVal]) -> bool
        requires around { IsAround self.now }
        requires ret_names { KnowsTy self.now ret.now }
        requires known { list_all (ty_val_known (count_of self.now)) arguments.now ≡ true }
        ensures { IsTrue result ↔ HasTypes (around_shape self.now) callee (ty_in self.now ret.now)
            (map (λ x. x.ty) (map (ty_val_in self.now) arguments.now)) }
    {
        match callee {
            Callee::Defined(number) => match self.defined(number) {
                Some(f) => self.defined_has(f, ret, arguments),
                None => false,
            },
            Callee::Declared(number) => match self.declared(number) {
                Some(d) => self.declared_has(d, ret, arguments),
                None => false,
            },
        }
    }

    /// Tells whether an operand calls a function that has the types of a call.
    fn calls_with(&self, callee: &Val, ret: &Ty, arguments: &[TyVal]) -> bool
        requires around { IsAround self.now }
        requires callee_names { KnowsVal self.now callee.now }
        requires ret_names { KnowsTy self.now ret.now }
        requires known { list_all (ty_val_known (count_of self.now)) arguments.now ≡ true }
        ensures { IsTrue result ↔ CallsWith (around_shape self.now) (val_in self.now callee.now)
            (ty_in self.now ret.now) (map (λ x. x.ty) (map (ty_val_in self.now) arguments.now)) }
    {
        match self.callee(callee) {
            Some(callee) => self.has_types(callee, ret, arguments),
            None => false,
        }
    }

    /// Tells whether a call is well typed.
    pub fn is_call(&self, ret: &Ty, callee: &Val, arguments: &[TyVal]) -> bool
        requires around { IsAround self.now }
        requires ret_names { KnowsTy self.now ret.now }
        requires callee_names { KnowsVal self.now callee.now }
        requires known { list_all (ty_val_known (count_of self.now)) arguments.now ≡ true }
        ensures { IsTrue result ↔ IsWellTyped (around_shape self.now)
            (call (ty_in self.now ret.now) (val_in self.now callee.now)
            (map (ty_val_in self.now) arguments.now)) }
    {
        self.calls_with(callee, ret, arguments) && self.all_fit(arguments)
    }
}
