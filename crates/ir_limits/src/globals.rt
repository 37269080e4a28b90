//! The bytes that the globals of a module take.

ghost use Rattle.std.specs.Prelude.{◌≡◌, ℕ, true};
ghost use Rattle.ir_tree.specs.Known.{module_known};
ghost use Rattle.ir_tree.specs.ShapeOf.{module_shape};
ghost use Rattle.ir_layout.specs.Tables.{IsWholeTable};
ghost use Rattle.ir_limits.specs.Sums.{HaveSum, IsTold};
ghost use Rattle.ir_limits.specs.Globals.{GlobalTakes};

use crate::frames::{rounded_up, size_in};
use ir_layout::Layouts;
use ir_tree::module::Module;

/// Returns the bytes that all globals take, each rounded up to a multiple of 16.
pub fn room_of_globals(m: &Module, layouts: &Layouts) -> u64
    requires known { module_known m.now ≡ true }
    requires table { IsWholeTable m.now layouts.now }
    requires sized { (n : ℕ) × HaveSum (GlobalTakes (module_shape m.now).types)
        (module_shape m.now).globals n }
    ensures { IsTold (HaveSum (GlobalTakes (module_shape m.now).types)
        (module_shape m.now).globals) result }
{
    let mut total = 0u64;
    for g in &m.globals {
        let size = size_in(m, Some(layouts), &g.ty);
        total = total.saturating_add(rounded_up(size as u128));
    }
    total
}
