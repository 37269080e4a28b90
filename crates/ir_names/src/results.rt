//! The types of what instructions give.

ghost use Rattle.std.specs.Prelude.{◌≡◌, List, ℕ, option_copied, true, IfSome};
ghost use Rattle.std.specs.Option.{option_map};
ghost use Rattle.ir_tree.specs.Known.{body_known, inst_known, function_known};
ghost use Rattle.ir_tree.specs.ShapeOf.{body_shape, inst_shape, function_shape};
ghost use Rattle.ir_rules.specs.Values.{result_ty as result_ty_of, is_void, inst_at as inst_at_of, site_ty};
ghost use Rattle.ir_names.specs.Results.{result_shape, IsKnownResult};

use ir_rules::Site;
use ir_tree::module::{Body, Function, Inst};
use ir_tree::types::Ty;

/// The type of what an instruction gives.
#[derive(Clone, Copy, Debug)]
pub enum ResultTy<'a> {
    /// The type that the instruction states.
    Stated(&'a Ty),
    /// `i1`
    Bit,
    /// `ptr`
    Address,
    /// `void`
    Nothing,
}

/// Returns the type of what an instruction gives; one that gives nothing has `void`.
pub fn result_ty(body: &Body) -> ResultTy
    ensures shape { (names : List (List ℕ)) →
        result_shape names result ≡ result_ty_of (body_shape names body.now) }
    ensures known { (count : ℕ) → body_known count body.now ≡ true → IsKnownResult count result }
{
    match body {
        Body::Phi(ty, _) => ResultTy::Stated(ty),
        Body::Binary(_, _, ty, _, _) => ResultTy::Stated(ty),
        Body::Icmp(_, _, _, _) => ResultTy::Bit,
        Body::Select(_, yes, _) => ResultTy::Stated(&yes.ty),
        Body::Convert(_, _, _, to) => ResultTy::Stated(to),
        Body::Freeze(ty, _) => ResultTy::Stated(ty),
        Body::Alloca(_, _) => ResultTy::Address,
        Body::Load(ty, _) => ResultTy::Stated(ty),
        Body::Gep(_, _, _, _) => ResultTy::Address,
        Body::Call(ret, _, _) => ResultTy::Stated(ret),
        Body::Store(_, _)
        | Body::Jump(_)
        | Body::Branch(_, _, _)
        | Body::Switch(_, _, _)
        | Body::RetVoid
        | Body::Ret(_)
        | Body::Unreachable => ResultTy::Nothing,
    }
}

/// Returns the type of what a parameter or an instruction of a function gives, if it is there.
pub fn type_of_site(f: &Function, site: Site) -> Option<ResultTy>
    ensures shape { (names : List (List ℕ)) →
        option_map (result_shape names) result ≡ site_ty (function_shape names f.now) site }
    ensures known { (count : ℕ) → function_known count f.now ≡ true →
        IfSome result (IsKnownResult count) }
{
    match site {
        Site::Param(k) => match f.params.get(k) {
            Some(param) => Some(ResultTy::Stated(&param.ty)),
            None => None,
        },
        Site::Inst(b, i) => match inst_at(f, b, i) {
            Some(inst) => Some(result_ty(&inst.body)),
            None => None,
        },
    }
}

/// Returns the instruction of the second number in the block of the first, if it is there.
pub fn inst_at(f: &Function, b: usize, i: usize) -> Option<&Inst>
    ensures shape { (names : List (List ℕ)) → option_map (inst_shape names) (option_copied result)
        ≡ inst_at_of (function_shape names f.now) b i }
    ensures known { (count : ℕ) → function_known count f.now ≡ true →
        IfSome result (λ x. inst_known count x.now ≡ true) }
{
    match f.blocks.get(b) {
        Some(block) => block.insts.get(i),
        None => None,
    }
}

impl<'a> ResultTy<'a> {
    /// Tells whether the type is `void`.
    pub fn is_void(&self) -> bool
        ensures { (names : List (List ℕ)) → result ≡ is_void (result_shape names self.now) }
    {
        match self {
            ResultTy::Stated(ty) => matches!(*ty, Ty::Void),
            ResultTy::Bit | ResultTy::Address => false,
            ResultTy::Nothing => true,
        }
    }
}
