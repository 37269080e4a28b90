//! The command `disasm EXE`.

ghost use Rattle.std.specs.Prelude.{◌≡◌, ◌+◌, ◌^◌, ◌≤◌, ◌++◌, None, length, IfOk, OnOk, MatchResult, codes, string_bytes};
ghost use Rattle.sr_base.specs.Meanings.{StoreMeaning};
ghost use Rattle.elf_file.specs.Image.{words_of};
ghost use Rattle.rv_inst.specs.Word.{form_at};
ghost use Rattle.sr_command.specs.Forms.Disasm.{listing, instruction_text, word_line, word_lines, segment_lines, disassembly};
ghost use Rattle.sr_command.specs.Hexadecimal.{eight_digits};
ghost use Rattle.sr_command.specs.Jobs.{IsJobOf, StopsEarly, IsOnlyRead};

use crate::job::Job;
use crate::loading::{Loaded, load};
use crate::status::Status;
use byteorder::{ByteOrder, LittleEndian};
use elf_file::{Image, Segment};
use sr_base::Store;
use std::alloc::{AllocError, Global};

/// Appends the text of a word's instruction, or `word` where it is none.
fn push_instruction(alloc: Global, text: &mut Vec<u8>, word: u32) -> Result<(), AllocError>
    ensures { OnOk result (text.new.items ≡ text.old.items ++ instruction_text (form_at word)) }
{
    match rv_inst::decode(word) {
        None => text.extend_from_slice(b"word"),
        Some(instruction) => text.extend_from_slice(&rv_inst::text(alloc, &instruction)?),
    }
}

/// Returns the address of a word and the word, with a blank after each.
fn numbers_of(alloc: Global, address: u64, word: u32) -> Result<String, AllocError>
    ensures { IfOk result (λ text. string_bytes text ≡ eight_digits address
        ++ (codes " " ++ (eight_digits word ++ codes " "))) }
{
    format!(in alloc; "{address:08x} {word:08x} ")
}

/// Appends the line of a word at an address.
fn push_line(alloc: Global, text: &mut Vec<u8>, address: u64, word: u32) -> Result<(), AllocError>
    ensures { OnOk result (text.new.items ≡ text.old.items ++ word_line address word) }
{
    let numbers = numbers_of(alloc, address, word)?;
    text.extend_from_slice(numbers.as_bytes())?;
    push_instruction(alloc, text, word)?;
    text.extend_from_slice(b"\n")?;
    Ok(())
}

/// Appends the lines of the whole words of these bytes, which stand at an address.
fn push_words(alloc: Global, text: &mut Vec<u8>, base: u64, bytes: &[u8]) -> Result<(), AllocError>
    requires { base + length bytes.now ≤ 2 ^ 64 }
    ensures { OnOk result (text.new.items
        ≡ text.old.items ++ word_lines base (words_of bytes.now)) }
{
    let mut rest = bytes;
    while let [_, _, _, _, more @ ..] = rest {
        let address = base + (bytes.len() - rest.len()) as u64;
        push_line(alloc, text, address, LittleEndian::read_u32(rest))?;
        rest = more;
    }
    Ok(())
}

/// Appends the lines of a segment, which has some where it is executable.
fn push_segment(alloc: Global, text: &mut Vec<u8>, segment: &Segment) -> Result<(), AllocError>
    ensures { OnOk result (text.new.items ≡ text.old.items ++ segment_lines segment.now) }
{
    if segment.flags % 2 == 1 {
        push_words(alloc, text, segment.base, segment.init.as_slice())
    } else {
        Ok(())
    }
}

/// Returns the lines of an image's executable segments.
fn disassembly(alloc: Global, image: &Image) -> Result<Vec<u8>, AllocError>
    ensures { IfOk result (λ text. text.items ≡ disassembly image.now) }
{
    let mut text = Vec::new(alloc);
    for segment in image.segments.as_slice() {
        push_segment(alloc, &mut text, segment)?;
    }
    Ok(text)
}

/// Returns what `disasm EXE` has to do, once EXE is read.
pub fn disasm<'a, S: Store>(alloc: Global, program: &str, store: &mut S) -> Result<Job<'a>, Status>
    ensures read { IsOnlyRead (S.meaning store.old) (S.meaning store.new) }
    ensures job { MatchResult result (IsJobOf (listing program.now) (S.meaning store.old).files)
        (StopsEarly (listing program.now) (S.meaning store.old) (S.meaning store.new)) }
{
    match load(alloc, program, None, store)? {
        Loaded::Refused { why } => Ok(Job::Refuse { why }),
        Loaded::Program { image, .. } => {
            let text = disassembly(alloc, &image)?;
            Ok(Job::Whole {
                output: None,
                text,
                line: Vec::new(alloc),
            })
        }
    }
}
