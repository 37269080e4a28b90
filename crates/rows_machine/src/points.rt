//! Lists of points where a program stays vulnerable.

use crate::parse::{hexadecimal, program};
use anyhow::{Result, bail, ensure};
use point_list::{Point, all_points, outside, points, points_text};
use std::alloc::{AllocError, Global};

/// Returns points with each register at each word of a text, and some that are none: with registers
/// from 32, between two words, before the text, after it, and one again.
fn asked_points(alloc: Global, base: u64, count: u64) -> Result<Vec<Point>, AllocError> {
    let mut asked = Vec::new(alloc);
    for reg in 0..40 {
        for k in 0..count {
            let pc = base.wrapping_add(k.wrapping_mul(4));
            asked.push(Point { pc, reg })?;
        }
    }
    let end = base.wrapping_add(count.wrapping_mul(4));
    for pc in [base.wrapping_add(2), base.wrapping_sub(4), end, base] {
        asked.push(Point { pc, reg: 5 })?;
    }
    Ok(asked)
}

/// Answers `NAME BASE WORD..`: the text of the list, and how many of the asked points are in it.
pub fn answer(alloc: Global, case: &[&str]) -> Result<String> {
    let [_, base, words @ ..] = case else {
        bail!("a case is a name, an address and words");
    };
    let words = program(alloc, words)?;
    let base = hexadecimal(base)?;
    let count = words.len() as u64;
    ensure!(base.checked_add(4 * count).is_some(), "there is no room");
    let asked = asked_points(alloc, base, count)?;
    let listed = points(alloc, &words, base, &asked)?;
    let mut inside = 0_u64;
    for point in &asked {
        if !outside(&listed, point.pc, point.reg) {
            inside = inside.saturating_add(1);
        }
    }
    let mut answer = format!(in alloc; "inside {inside}")?;
    let text = String::from_utf8(points_text(alloc, &listed)?)?;
    let every = all_points(alloc, &words, base)?;
    let every_text = String::from_utf8(points_text(alloc, &every)?)?;
    ensure!(text == every_text, "the list of all points is another one");
    for line in text.lines() {
        write!(answer, " {line}")?;
    }
    Ok(answer)
}
