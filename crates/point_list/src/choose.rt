//! Which points are window points of a text: all of them, or the asked ones.

ghost use Rattle.std.specs.Prelude.{◌≡◌, ◌↔◌, ◌+◌, ◌*◌, ◌<◌, ◌^◌, ◌==◌, ◌&&◌, ◌||◌, ℕ, length, map, IfOk, Contains};
ghost use Rattle.std.specs.List.{list_any};
ghost use Rattle.rv_inst.specs.Word.{form_at};
ghost use Rattle.rv_inst.specs.Window.{IsWindowPoint};
ghost use Rattle.point_list.specs.Walk.{begun_before};
ghost use Rattle.point_list.specs.Marks.{is_marked, is_at};
ghost use Rattle.point_list.specs.Points.{AreSorted};
ghost use Rattle.point_list.specs.declared.list.Point.{Point};

use crate::list::Point;
use crate::marks::{is_marked, marked_points, set_mark};
use crate::walk::{index_of, mark_windows};
use rv_inst::{Rv, decode};
use std::alloc::{AllocError, Global};

/// Returns what each word of a text says.
fn decoded(alloc: Global, words: &[u32]) -> Result<Vec<Option<Rv>>, AllocError>
    ensures { IfOk result (λ text. text.items ≡ map form_at words.now) }
{
    words.iter().map(|word| decode(*word)).collect(alloc)
}

/// Returns the window points of a text, as marks.
fn window_marks(alloc: Global, words: &[u32], base: u64) -> Result<Vec<u32>, AllocError>
    requires { base + 4 * length words.now < 2 ^ 64 }
    ensures len { IfOk result (λ marks. length marks.items ≡ length words.now) }
    ensures marks { IfOk result (λ marks. (k r : ℕ) → is_marked marks.items k r ≡ begun_before (map form_at words.now) base (length words.now) k r) }
{
    let text = decoded(alloc, words)?;
    let mut marks = vec![in alloc; 0; words.len()]?;
    mark_windows(&text, base, &mut marks);
    Ok(marks)
}

/// Marks an asked point, where it is a marked window point.
fn mark_asked(window: &[u32], base: u64, point: Point, marks: &mut [u32])
    requires { length marks.old ≡ length window.now }
    ensures { (k r : ℕ) → is_marked marks.new k r ≡ (is_marked marks.old k r || is_marked window.now k r && is_at base k r point) }
{
    let Some(k) = index_of(base, window.len(), point.pc) else {
        return;
    };
    if point.reg < 32 && is_marked(window, k, point.reg) {
        set_mark(marks, k, point.reg);
    }
}

/// Returns the asked points among the window points, as marks.
fn asked_marks(
    alloc: Global,
    window: &[u32],
    base: u64,
    asked: &[Point],
) -> Result<Vec<u32>, AllocError>
    ensures len { IfOk result (λ marks. length marks.items ≡ length window.now) }
    ensures marks { IfOk result (λ marks. (k r : ℕ) → is_marked marks.items k r ≡ (is_marked window.now k r && list_any (is_at base k r) asked.now)) }
{
    let mut marks = vec![in alloc; 0; window.len()]?;
    for point in asked {
        mark_asked(window, base, *point, &mut marks);
    }
    Ok(marks)
}

/// Returns those of the asked points that are window points of a text whose first word is at address `base`, by
/// address and then register, each once.
pub fn points(
    alloc: Global,
    words: &[u32],
    base: u64,
    asked: &[Point],
) -> Result<Vec<Point>, AllocError>
    requires { base + 4 * length words.now < 2 ^ 64 }
    ensures sorted { IfOk result (λ points. AreSorted points.items) }
    ensures exact { IfOk result (λ points. (p : Point) → Contains points.items p ↔ (Contains asked.now p × IsWindowPoint words.now base p.pc p.reg)) }
{
    let window = window_marks(alloc, words, base)?;
    let marks = asked_marks(alloc, &window, base, asked)?;
    marked_points(alloc, base, &marks)
}

/// Returns the window points of a text whose first word is at address `base`, by address and then register, each
/// once.
pub fn all_points(alloc: Global, words: &[u32], base: u64) -> Result<Vec<Point>, AllocError>
    requires { base + 4 * length words.now < 2 ^ 64 }
    ensures sorted { IfOk result (λ points. AreSorted points.items) }
    ensures exact { IfOk result (λ points. (p : Point) →
        Contains points.items p ↔ IsWindowPoint words.now base p.pc p.reg) }
{
    let windows = window_marks(alloc, words, base)?;
    marked_points(alloc, base, &windows)
}
