// Words of instructions, and the registers that an instruction reads and writes.

ghost use Rattle.std.specs.Prelude.{◌≡◌, ◌↔◌, ◌<◌, ◌^◌, ℕ, Some};
ghost use Rattle.rv_inst.specs.declared.instruction.Form.{Form};
ghost use Rattle.rv_inst.specs.Word.{Word, form_at};
ghost use Rattle.rv_inst.specs.Registers.{reads, writes, sources, target};

use crate::fields::{cut, fields_for, join, operands_from};
use crate::forms::{form_of, kind_of, operands_of};
use crate::instruction::{Form, Rv};
use crate::opcodes::kind_of_fields;
use crate::table::{Format, Operands, row_of};

/// Returns the word of an instruction: the only one that it has.
pub fn encode(i: &Rv) -> u32
    ensures { (w : ℕ) → Word w i.now ↔ (w ≡ result) }
{
    let form = i.form();
    let row = row_of(kind_of(form));
    join(fields_for(row, operands_of(form)))
}

/// Returns the instruction of a word, `None` exactly where the table has none.
pub fn decode(word: u32) -> Option<Rv>
    ensures exact { (i : Form) → (result ≡ Some i) ↔ Word word i }
    ensures computed { result ≡ form_at word }
{
    match form_in_word(word) {
        Some(form) => Some(Rv::from_form(form)),
        None => None,
    }
}

// Returns the form of a word's instruction.
fn form_in_word(word: u32) -> Option<Form>
    ensures { result ≡ form_at word }
{
    let fields = cut(word);
    match kind_of_fields(fields) {
        Some(kind) => Some(form_of(kind, operands_from(row_of(kind).format, fields))),
        None => None,
    }
}

/// Returns whether the instruction reads register `r`. `ECALL` reads x10, x11, x12 and x17. No instruction
/// reads x0, which is always 0.
pub fn reads(i: &Rv, r: u8) -> bool
    ensures { result ≡ reads i.now r }
{
    let form = i.form();
    r > 0 && is_source(row_of(kind_of(form)).format, operands_of(form), r)
}

/// Returns whether the instruction writes register `r`. `ECALL` writes x10. No instruction writes x0.
pub fn writes(i: &Rv, r: u8) -> bool
    ensures { result ≡ writes i.now r }
{
    let form = i.form();
    r > 0 && is_target(row_of(kind_of(form)).format, operands_of(form), r)
}

// Returns whether an instruction of this format reads `r`.
fn is_source(format: Format, o: Operands, r: u8) -> bool
    ensures { result ≡ sources format o r }
{
    match format {
        Format::Upper | Format::Jump => false,
        Format::Immediate | Format::Shift | Format::ShiftWord => r == o.rs1,
        Format::Branch | Format::Store | Format::Register => r == o.rs1 || r == o.rs2,
        Format::System => matches!(r, 10 | 11 | 12 | 17),
    }
}

// Returns whether an instruction of this format writes `r`.
fn is_target(format: Format, o: Operands, r: u8) -> bool
    ensures { result ≡ target format o r }
{
    match format {
        Format::Branch | Format::Store => false,
        Format::System => r == 10,
        _ => r == o.rd,
    }
}

/// States a law of the table: no word has two instructions, and no instruction two words.
pub fn words_are_distinct()
    ensures one_instruction { (w : ℕ) (i j : Form) → Word w i → Word w j → i ≡ j }
    ensures one_word { (v w : ℕ) (i : Form) → Word v i → Word w i → v ≡ w }
    ensures fits { (w : ℕ) (i : Form) → Word w i → w < 2 ^ 32 }
{}
