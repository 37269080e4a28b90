//! Comparisons.

ghost use Rattle.std.specs.Prelude.{◌≡◌};
ghost use Rattle.ir_model.specs.Integers.{holds};
ghost use Rattle.ir_arith.specs.Widths.{AreNumbers};

use crate::widths::signed;
use ir_tree::module::Pred;

/// Tells whether a comparison of two numbers of a width holds.
pub fn holds(predicate: Pred, width: u8, a: u64, b: u64) -> bool
    requires { AreNumbers width a b }
    ensures { result ≡ holds predicate width a b }
{
    match predicate {
        Pred::Eq => a == b,
        Pred::Ne => a != b,
        Pred::Ugt => a > b,
        Pred::Uge => a >= b,
        Pred::Ult => a < b,
        Pred::Ule => a <= b,
        Pred::Sgt => signed(width, a) > signed(width, b),
        Pred::Sge => signed(width, a) >= signed(width, b),
        Pred::Slt => signed(width, a) < signed(width, b),
        Pred::Sle => signed(width, a) <= signed(width, b),
    }
}
