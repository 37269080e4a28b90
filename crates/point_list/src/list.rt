//! Lists of points, and their text.

ghost use Rattle.std.specs.Prelude.{◌≡◌, ◌↔◌, ◌<◌, ◌^◌, IfOk, OnOk, IsTrue, ◌++◌, Contains, List, length, string_bytes};
ghost use Rattle.std.specs.List.{AllByRecursion};
ghost use Rattle.point_list.specs.Points.{points_text, point_line, IsPoint, AreSorted};
ghost use Rattle.point_list.specs.declared.list.Point.{Point};

use std::alloc::{AllocError, Global};

/// A flip of a bit of register `reg` (1 to 31) just before the instruction at address `pc` may do harm.
#[derive(Clone, Copy, Debug, PartialEq, Eq, PartialOrd, Ord)]
pub struct Point {
    pub pc: u64,
    pub reg: u8,
}

/// Returns whether no point of the list has this address and this register.
pub fn outside(points: &[Point], pc: u64, reg: u8) -> bool
    requires { AreSorted points.now }
    ensures { IsTrue result ↔ (¬ Contains points.now (record { pc = pc; reg = reg })) }
{
    points.binary_search(&Point { pc, reg }).is_err()
}

/// Appends the line of a point.
fn push_line(text: &mut String, point: Point) -> Result<(), AllocError>
    ensures { OnOk result (string_bytes text.new ≡ string_bytes text.old ++ point_line point) }
{
    let Point { pc, reg } = point;
    writeln!(text, "{pc:08x} x{reg}")
}

/// Returns the text of the list: a line with the number of points, and a line a point.
pub fn points_text(alloc: Global, points: &[Point]) -> Result<Vec<u8>, AllocError>
    ensures { IfOk result (λ text. text.items ≡ points_text points.now) }
{
    let mut text = format!(in alloc; "points {}\n", points.len())?;
    for point in points {
        push_line(&mut text, *point)?;
    }
    Ok(text.into_bytes())
}

/// States that the text of a list determines the list.
pub fn text_determines_points()
    ensures { (ps qs : List Point) → AllByRecursion IsPoint ps → AllByRecursion IsPoint qs → length ps < 2 ^ 64 → length qs < 2 ^ 64 → points_text ps ≡ points_text qs → ps ≡ qs }
{}
