//! Whether the names that items use are there.

ghost use Rattle.std.specs.Prelude.{map};
ghost use Rattle.std.specs.List.{list_all, flat_map};
ghost use Rattle.ir_tree.specs.ShapeOf.{param_shape, global_shape, declare_shape, function_shape};
ghost use Rattle.ir_tree.specs.Known.{param_known, global_known, declare_known, function_known};
ghost use Rattle.ir_rules.specs.Uses.{ty_uses, global_uses, declare_uses, head_uses};
ghost use Rattle.ir_missing.specs.Tells.{Outside, Tells};

use crate::constants::const_there;
use crate::types::{ty_there, tys_there};
use ir_names::ModuleNames;
use ir_tree::module::{Declare, Function, GlobalItem, Param};

/// Tells whether the names that a global uses are there.
pub fn global_there(outside: &ModuleNames, global: &GlobalItem) -> bool
    ensures { Tells (Outside outside.now) (λ n. global_known n global.now)
        (λ names. global_uses (global_shape names global.now)) result }
{
    ty_there(outside, &global.ty) && const_there(outside, &global.init)
}

/// Tells whether the names that a declared function uses are there.
pub fn declare_there(outside: &ModuleNames, declare: &Declare) -> bool
    ensures { Tells (Outside outside.now) (λ n. declare_known n declare.now)
        (λ names. declare_uses (declare_shape names declare.now)) result }
{
    ty_there(outside, &declare.ret) && tys_there(outside, &declare.params)
}

/// Tells whether the names that the types of parameters use are there.
fn params_there(outside: &ModuleNames, params: &[Param]) -> bool
    ensures { Tells (Outside outside.now) (λ n. list_all (param_known n) params.now)
        (λ names. flat_map (λ p. ty_uses p.ty) (map (param_shape names) params.now)) result }
{
    for param in params {
        if !ty_there(outside, &param.ty) {
            return false;
        }
    }
    true
}

/// Tells whether the names that the head of a function uses are there.
pub fn head_there(outside: &ModuleNames, f: &Function) -> bool
    ensures { Tells (Outside outside.now) (λ n. function_known n f.now)
        (λ names. head_uses (function_shape names f.now)) result }
{
    ty_there(outside, &f.ret) && params_there(outside, &f.params)
}
