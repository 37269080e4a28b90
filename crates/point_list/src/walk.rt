//! From each word that begins a window, along its quiet path.

ghost use Rattle.std.specs.Prelude.{◌≡◌, ◌+◌, ◌*◌, ◌<◌, ◌≤◌, ◌^◌, ◌||◌, ◌&&◌, ◌==◌, ◌⊎◌, ℕ, IsTrue, Some, length};
ghost use Rattle.rv_inst.specs.Window.{begins, quiet_next, offset_from};
ghost use Rattle.point_list.specs.Walk.{index_of, next_index, holds_later, reaches, on_way, begun_by, begun_at, begun_before};
ghost use Rattle.point_list.specs.Marks.{is_marked};

use crate::instructions::{begins, passes, uses};
use crate::marks::set_mark;
use rv_inst::{Form, Rv};

/// A value in a register, with the instruction that brought or checked it there.
#[derive(Clone, Copy)]
pub struct Value {
    pub reg: u8,
    pub first: Form,
}

/// Returns the index of the word at an address, in a text of `count` words that begins at `base`.
pub fn index_of(base: u64, count: usize, address: u64) -> Option<usize>
    ensures { result ≡ index_of base count address }
{
    if base <= address && (address - base) % 4 == 0 && (address - base) / 4 < count as u64 {
        Some(((address - base) / 4) as usize)
    } else {
        None
    }
}

/// Returns the address at this offset from another.
fn offset_from(address: u64, offset: i32) -> u64
    ensures { result ≡ offset_from address offset }
{
    address.wrapping_add(i64::from(offset).cast_unsigned())
}

/// Returns the address that the quiet path goes on to.
fn quiet_next(address: u64, instruction: Option<Rv>) -> u64
    requires { address + 4 < 2 ^ 64 }
    ensures { result ≡ quiet_next (record { address = address; instruction = instruction }) }
{
    let Some(rv) = instruction else {
        return address + 4;
    };
    match rv.form() {
        Form::BEQ(_, _, offset) => offset_from(address, offset),
        Form::JAL(_, offset) => offset_from(address, offset),
        _ => address + 4,
    }
}

/// Returns the index of the word that the quiet path goes on to.
fn next_index(text: &[Option<Rv>], base: u64, k: usize) -> Option<usize>
    requires room { base + 4 * length text.now < 2 ^ 64 }
    requires within { k < length text.now }
    ensures { result ≡ next_index text.now base k }
{
    let target = quiet_next(base + 4 * k as u64, text[k]);
    index_of(base, text.len(), target)
}

/// Marks the register at each word on the way from word `start` to a use of the value, by at most `words` words
/// with the use, and returns whether there is one.
#[cycle(walk)]
fn mark_way(
    text: &[Option<Rv>],
    base: u64,
    value: Value,
    start: usize,
    words: u8,
    marks: &mut [u32],
) -> bool
    requires room { base + 4 * length text.now < 2 ^ 64 }
    requires within { start < length text.now }
    requires same { length marks.old ≡ length text.now }
    requires register { value.reg < 32 }
    ensures reaches { result ≡ reaches text.now base value words start }
    ensures marks { (k r : ℕ) → is_marked marks.new k r ≡ (is_marked marks.old k r || (r == value.reg && on_way text.now base value words start k)) }
{
    if words == 0 {
        return false;
    }
    let used = uses(value.reg, value.first, text[start]);
    let later = mark_later(text, base, value, start, words - 1, marks);
    let reached = used | later;
    if reached {
        set_mark(marks, start, value.reg);
    }
    reached
}

/// Marks the register at each word on the way to a use from the word after `start`, where word `start` lets the
/// value pass.
#[cycle(walk)]
fn mark_later(
    text: &[Option<Rv>],
    base: u64,
    value: Value,
    start: usize,
    words: u8,
    marks: &mut [u32],
) -> bool
    requires room { base + 4 * length text.now < 2 ^ 64 }
    requires within { start < length text.now }
    requires same { length marks.old ≡ length text.now }
    requires register { value.reg < 32 }
    ensures reaches { result ≡ holds_later text.now base value start (reaches text.now base value words) }
    ensures marks { (k r : ℕ) → is_marked marks.new k r ≡ (is_marked marks.old k r || (r == value.reg && holds_later text.now base value start (λ m. on_way text.now base value words m k))) }
{
    if !passes(value.reg, value.first, text[start]) {
        return false;
    }
    match next_index(text, base, start) {
        Some(next) => mark_way(text, base, value, next, words, marks),
        None => false,
    }
}

/// Returns the registers, at most two, that an instruction brings a value into or checks.
fn begun_registers(form: Form) -> (u8, u8)
    ensures { (r : ℕ) → IsTrue (begins r form) → (r ≡ result.0) ⊎ (r ≡ result.1) }
{
    match form {
        Form::LUI(rd, _) => (rd, rd),
        Form::JAL(rd, _) => (rd, rd),
        Form::ADDI(rd, ..) => (rd, rd),
        Form::LB(rd, ..) => (rd, rd),
        Form::LH(rd, ..) => (rd, rd),
        Form::LW(rd, ..) => (rd, rd),
        Form::LD(rd, ..) => (rd, rd),
        Form::LBU(rd, ..) => (rd, rd),
        Form::LHU(rd, ..) => (rd, rd),
        Form::LWU(rd, ..) => (rd, rd),
        Form::ECALL => (10, 10),
        Form::BEQ(rs1, rs2, _) => (rs1, rs2),
        Form::BNE(rs1, rs2, _) => (rs1, rs2),
        _ => (0, 0),
    }
}

/// Marks `reg` at each word up to which it has a window from word `k`, where the instruction there begins one.
fn mark_begun(text: &[Option<Rv>], base: u64, k: usize, first: &Rv, reg: u8, marks: &mut [u32])
    requires room { base + 4 * length text.now < 2 ^ 64 }
    requires within { k < length text.now }
    requires same { length marks.old ≡ length text.now }
    ensures { (i r : ℕ) → is_marked marks.new i r ≡ (is_marked marks.old i r || r == reg && begun_by k r (Some first.now) text.now base i) }
{
    if begins(reg, first)
        && let Some(start) = next_index(text, base, k)
    {
        let value = Value {
            reg,
            first: first.form(),
        };
        mark_way(text, base, value, start, 31, marks);
    }
}

/// Marks each register at each word up to which it has a window from word `k`.
fn mark_from(text: &[Option<Rv>], base: u64, k: usize, marks: &mut [u32])
    requires room { base + 4 * length text.now < 2 ^ 64 }
    requires within { k < length text.now }
    requires same { length marks.old ≡ length text.now }
    ensures { (i r : ℕ) → is_marked marks.new i r ≡ (is_marked marks.old i r || begun_at text.now base k i r) }
{
    let Some(first) = text[k] else {
        return;
    };
    let (one, other) = begun_registers(first.form());
    mark_begun(text, base, k, &first, one, marks);
    mark_begun(text, base, k, &first, other, marks);
}

/// Marks each register at each word of a text up to which it has a window.
pub fn mark_windows(text: &[Option<Rv>], base: u64, marks: &mut [u32])
    requires room { base + 4 * length text.now < 2 ^ 64 }
    requires same { length marks.old ≡ length text.now }
    ensures { (i r : ℕ) → is_marked marks.new i r ≡ (is_marked marks.old i r || begun_before text.now base (length text.now) i r) }
{
    for k in 0..text.len() {
        mark_from(text, base, k, marks);
    }
}
