//! Texts, executables and their inputs, from files.

ghost use Rattle.std.specs.Prelude.{◌≡◌, ℕ, List, Option, IfOk, IfErr, MatchResult};
ghost use Rattle.sr_base.specs.Meanings.{StoreMeaning};
ghost use Rattle.sr_command.specs.Commands.{word_bytes};
ghost use Rattle.sr_base.specs.Files.{Files};
ghost use Rattle.sr_command.specs.Jobs.{FailsToLoad, IsOnlyRead, IsReadWithin, StopsReading, IsInputAs, StopsInput, IsLoadedAs, StopsLoading};

use crate::refusal::Refusal;
use crate::status::Status;
use elf_file::{ElfError, Image};
use sr_base::{Store, StoreError};
use std::alloc::Global;

/// The most bytes that a text may have.
pub const MOST_TEXT: usize = 4_194_304;

/// The most bytes that an executable may have.
const MOST_PROGRAM: usize = 268_435_456;

/// The most bytes that an input may have.
pub const MOST_INPUT: usize = 16_777_216;

/// What the files of an executable and an input are.
#[derive(Drop)]
pub enum Loaded {
    /// The executable's image, and the input.
    Program { image: Image, input: Vec<u8> },
    /// One of them is refused, for this reason.
    Refused { why: Refusal },
}

/// Reads a file; `None` where it has more than `most` bytes.
pub fn read_file<S: Store>(
    alloc: Global,
    name: &str,
    most: usize,
    store: &mut S,
) -> Result<Option<Vec<u8>>, Status>
    ensures ok { IfOk result (IsReadWithin most (S.meaning store.old).files name.now) }
    ensures err { IfErr result (StopsReading (S.meaning store.old) (S.meaning store.new) name.now) }
    ensures read { IsOnlyRead (S.meaning store.old) (S.meaning store.new) }
{
    match store.read(alloc, name, most) {
        Ok(content) => Ok(Some(content)),
        Err(StoreError::TooLong) => Ok(None),
        Err(StoreError::Failed) => Err(Status::ReadFault),
        Err(StoreError::Absent) => Err(Status::Absent),
        Err(StoreError::OutOfMemory) => Err(Status::NoMemory),
    }
}

/// Reads the input, which is empty where it has no name; `None` where its file is too long.
pub fn read_input<S: Store>(
    alloc: Global,
    input: Option<&str>,
    store: &mut S,
) -> Result<Option<Vec<u8>>, Status>
    ensures ok { IfOk result (IsInputAs (S.meaning store.old).files (word_bytes input.entry)) }
    ensures err { IfErr result (StopsInput (S.meaning store.old) (S.meaning store.new)
        (word_bytes input.entry)) }
    ensures read { IsOnlyRead (S.meaning store.old) (S.meaning store.new) }
{
    match input {
        None => Ok(Some(Vec::new(alloc))),
        Some(name) => read_file(alloc, name, MOST_INPUT, store),
    }
}

/// Returns what a file is that is no executable; `NoMemory` where memory ran out.
fn no_executable(error: ElfError) -> Result<Loaded, Status>
    ensures ok { (files : Option Files) (program : List ℕ) (input : Option (List ℕ)) →
        FailsToLoad files program input error → IfOk result (IsLoadedAs files program input) }
    ensures err { IfErr result (λ status. status ≡ Status.NoMemory) }
{
    let why = match error {
        ElfError::NotElf => Refusal::NotElf,
        ElfError::WrongKind => Refusal::WrongKind,
        ElfError::BadSegment => Refusal::BadSegment,
        ElfError::Overlap => Refusal::Overlap,
        ElfError::TooLarge => Refusal::TooLarge,
        ElfError::OutOfMemory => return Err(Status::NoMemory),
    };
    Ok(Loaded::Refused { why })
}

/// Reads an executable, and then its input.
pub fn load<S: Store>(
    alloc: Global,
    program: &str,
    input: Option<&str>,
    store: &mut S,
) -> Result<Loaded, Status>
    ensures read { IsOnlyRead (S.meaning store.old) (S.meaning store.new) }
    ensures loaded { MatchResult result (IsLoadedAs (S.meaning store.old).files program.now
        (word_bytes input.entry)) (StopsLoading (S.meaning store.old)
        (S.meaning store.new) program.now (word_bytes input.entry)) }
{
    let Some(bytes) = read_file(alloc, program, MOST_PROGRAM, store)? else {
        return Ok(Loaded::Refused {
            why: Refusal::TooLong { most: MOST_PROGRAM },
        });
    };
    let Some(content) = read_input(alloc, input, store)? else {
        return Ok(Loaded::Refused {
            why: Refusal::TooLong { most: MOST_INPUT },
        });
    };
    match elf_file::read(alloc, &bytes) {
        Ok(image) => Ok(Loaded::Program {
            image,
            input: content,
        }),
        Err(error) => no_executable(error),
    }
}
