//! Marks: registers of words, kept as a number a word, whose bit r is 1 where register r is marked.

ghost use Rattle.std.specs.Prelude.{◌≡◌, ◌↔◌, ◌+◌, ◌*◌, ◌<◌, ◌≤◌, ◌^◌, ◌||◌, ◌&&◌, ◌==◌, ℕ, ◌++◌, length, Contains, OnOk, IfOk};
ghost use Rattle.point_list.specs.Marks.{is_marked, points_at, IsMarkedPoint};
ghost use Rattle.point_list.specs.Points.{AreSorted};
ghost use Rattle.point_list.specs.declared.list.Point.{Point};

use crate::list::Point;
use std::alloc::{AllocError, Global};

/// Returns whether register `reg` of word `k` is marked.
pub fn is_marked(marks: &[u32], k: usize, reg: u8) -> bool
    requires within { k < length marks.now }
    requires register { reg < 32 }
    ensures { result ≡ is_marked marks.now k reg }
{
    (marks[k] >> reg) & 1 == 1
}

/// Marks register `reg` of word `k`.
pub fn set_mark(marks: &mut [u32], k: usize, reg: u8)
    requires within { k < length marks.old }
    requires register { reg < 32 }
    ensures { (i r : ℕ) → is_marked marks.new i r ≡ (is_marked marks.old i r || (i == k && r == reg)) }
{
    marks[k] |= 1 << reg;
}

/// Appends the points of the marked registers of a word at `pc`.
fn push_points(points: &mut Vec<Point>, pc: u64, mark: u32) -> Result<(), AllocError>
    ensures { OnOk result (points.new.items ≡ points.old.items ++ points_at pc mark 32) }
{
    for reg in 0..32 {
        if (mark >> reg) & 1 == 1 {
            points.push(Point { pc, reg })?;
        }
    }
    Ok(())
}

/// Returns the points of the marks of a text that begins at `base`, by address and then register.
pub fn marked_points(alloc: Global, base: u64, marks: &[u32]) -> Result<Vec<Point>, AllocError>
    requires { base + 4 * length marks.now < 2 ^ 64 }
    ensures sorted { IfOk result (λ points. AreSorted points.items) }
    ensures marked { IfOk result (λ points. (p : Point) → Contains points.items p ↔ IsMarkedPoint base marks.now p) }
{
    let mut points = Vec::new(alloc);
    for (k, mark) in marks.iter().enumerate() {
        push_points(&mut points, base + 4 * k as u64, *mark)?;
    }
    Ok(points)
}
