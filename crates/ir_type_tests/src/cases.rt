//! The cases of a `switch`.

ghost use Rattle.std.specs.Prelude.{◌↔◌, ◌≤◌, List, ℕ, map, nat_eq, IsTrue, IfOk};
ghost use Rattle.std.specs.List.{AllByRecursion, IsDistinct};
ghost use Rattle.ir_tree.specs.ShapeOf.{case_shape};
ghost use Rattle.ir_rules.specs.Instructions.{IsCase, AreCases, bits_of};

use crate::numbers::{bits_of, is_literal};
use crate::types::is_integer_of;
use ir_tree::module::Case;
use std::alloc::{AllocError, Global};
use std::collections::BTreeSet;

/// Tells whether a case has the integer type of so many bits, and a number of this type.
fn is_case(width: u8, case: &Case) -> bool
    ensures { (names : List (List ℕ)) → IsTrue result ↔ IsCase width (case_shape names case.now) }
{
    is_integer_of(width, &case.ty) && is_literal(case.value, &case.ty)
}

/// Tells whether each case has the integer type of so many bits, and a number of this type.
fn are_literals(width: u8, cases: &[Case]) -> bool
    ensures { (names : List (List ℕ)) → IsTrue result ↔
        AllByRecursion (IsCase width) (map (case_shape names) cases.now) }
{
    for case in cases {
        if !is_case(width, case) {
            return false;
        }
    }
    true
}

/// Tells whether no two cases have the same bits. The time is that of sorting them, whatever their numbers are.
fn are_apart(alloc: Global, width: u8, cases: &[Case]) -> Result<bool, AllocError>
    requires { width ≤ 64 }
    ensures { IfOk result (λ apart. IsTrue apart ↔
        IsDistinct nat_eq (map (λ c. bits_of width c.value) cases.now)) }
{
    let mut seen = BTreeSet::new(alloc);
    for case in cases {
        if !seen.insert(bits_of(width, case.value))? {
            return Ok(false);
        }
    }
    Ok(true)
}

/// Tells whether the cases of a `switch` on a value of so many bits are numbers of its type, and distinct.
pub fn are_cases(alloc: Global, width: u8, cases: &[Case]) -> Result<bool, AllocError>
    requires { width ≤ 64 }
    ensures { IfOk result (λ are. (names : List (List ℕ)) → IsTrue are ↔
        AreCases width (map (case_shape names) cases.now)) }
{
    if are_literals(width, cases) {
        are_apart(alloc, width, cases)
    } else {
        Ok(false)
    }
}
