//! Why a file is refused, and the line that tells it.

ghost use Rattle.std.specs.Prelude.{◌≡◌, ℕ, List, [], ◌∷◌, ◌++◌, Err, take, drop, codes, decimal, IfOk, IfErr};
ghost use Rattle.ir_source.specs.Texts.{IsRead};
ghost use Rattle.ir_accept.specs.Checks.{IsCheckedText, IsRefusedWith};
ghost use Rattle.sr_command.specs.Refusals.{HasNoModule, IsNotAccepted, limit_word, refused_line};

use crate::status::Status;
use ir_check::{CheckError, Which};
use ir_source::SourceError;
use std::alloc::{AllocError, Global};

/// Why a file is refused. Offsets and lengths are in bytes.
#[derive(Debug, Drop)]
pub enum Refusal {
    /// The file has more bytes than a file of its kind may have.
    TooLong {
        /// How many it may have.
        most: usize,
    },
    /// A byte of the text begins no token.
    Bad {
        /// The offset of the byte.
        at: usize,
    },
    /// A word of the text is outside the language.
    Outside {
        /// The offset of the word.
        at: usize,
        /// The word.
        word: Vec<u8>,
    },
    /// A bracket of the text is the 65th open one.
    Deep {
        /// The offset of the bracket.
        at: usize,
    },
    /// A token of the text is wrong, or the text ends too early.
    Syntax {
        /// The offset of the token, or the length of the text.
        at: usize,
    },
    /// The first place at which a rule of names fails.
    Name {
        /// The offset of the item or the instruction there.
        at: usize,
    },
    /// The first place at which a rule of types fails.
    Typing {
        /// The offset of the item or the instruction there.
        at: usize,
    },
    /// The first place at which a rule of the flow fails.
    Flow {
        /// The offset of the instruction there.
        at: usize,
    },
    /// The text defines no `main` without parameters that returns an `i32`.
    NoMain,
    /// The text passes a limit.
    Limit {
        /// The limit.
        which: Which,
        /// The count that passes it.
        found: u64,
        /// The most that it allows.
        most: u64,
    },
    /// The text is not of the form that is compiled today.
    NotBuilt,
    /// The file doesn't begin as an executable.
    NotElf,
    /// The executable is not one for the machine.
    WrongKind,
    /// A segment of the executable is not within the file or the memory.
    BadSegment,
    /// Two segments of the executable share an address.
    Overlap,
    /// The executable wants more memory than the machine has.
    TooLarge,
}

/// Returns so many bytes of a text starting at an offset, or as many as there are.
fn bytes_at(text: &[u8], at: usize, len: usize) -> &[u8]
    ensures { result.now ≡ take len (drop at text.now) }
{
    let rest = &text[at.min(text.len())..];
    &rest[..len.min(rest.len())]
}

/// Returns why a text is refused that was not read for this reason; `NoMemory` where memory ran out.
pub fn text_refusal(alloc: Global, text: &[u8], error: SourceError) -> Result<Refusal, Status>
    ensures ok { IsRead text.now (Err error) → IfOk result (HasNoModule text.now) }
    ensures err { IfErr result (λ status. status ≡ Status.NoMemory) }
{
    match error {
        SourceError::Bad { at } => Ok(Refusal::Bad { at }),
        SourceError::Outside { at, len } => {
            let word = Vec::from_slice(alloc, bytes_at(text, at, len))?;
            Ok(Refusal::Outside { at, word })
        }
        SourceError::Deep { at } => Ok(Refusal::Deep { at }),
        SourceError::Syntax { at } => Ok(Refusal::Syntax { at }),
        SourceError::OutOfMemory => Err(Status::NoMemory),
    }
}

/// Returns why a text is refused whose module was refused for this reason; `NoMemory` where memory ran out.
fn module_refusal(error: CheckError) -> Result<Refusal, Status>
    ensures ok { (text : List ℕ) → IsRefusedWith text error → IfOk result (IsNotAccepted text) }
    ensures err { IfErr result (λ status. status ≡ Status.NoMemory) }
{
    match error {
        CheckError::Name { at } => Ok(Refusal::Name { at }),
        CheckError::Typing { at } => Ok(Refusal::Typing { at }),
        CheckError::Flow { at } => Ok(Refusal::Flow { at }),
        CheckError::NoMain => Ok(Refusal::NoMain),
        CheckError::Limit { which, found, most } => Ok(Refusal::Limit { which, found, most }),
        CheckError::OutOfMemory => Err(Status::NoMemory),
    }
}

/// Returns why a text is refused that was not accepted for this reason; `NoMemory` where memory ran out.
pub fn checked_refusal(
    alloc: Global,
    text: &[u8],
    error: ir_accept::Refusal,
) -> Result<Refusal, Status>
    ensures ok { IsCheckedText text.now (Err error) → IfOk result (IsNotAccepted text.now) }
    ensures err { IfErr result (λ status. status ≡ Status.NoMemory) }
{
    match error {
        ir_accept::Refusal::Text(error) => text_refusal(alloc, text, error),
        ir_accept::Refusal::Module(error) => module_refusal(error),
    }
}

/// Returns the word for a limit.
fn limit_word(which: Which) -> &'static str
    ensures { result.now ≡ limit_word which }
{
    match which {
        Which::Functions => "functions",
        Which::Params => "params",
        Which::Results => "results",
        Which::Cases => "cases",
        Which::Frame => "frame",
        Which::Globals => "globals",
        Which::Weight => "weight",
    }
}

/// Returns the line of a refusal for a limit that is passed.
fn limit_line(alloc: Global, which: Which, found: u64, most: u64) -> Result<Vec<u8>, AllocError>
    ensures { IfOk result (λ line. line.items ≡ codes "refused Limit " ++ (limit_word which ++
        (codes " found=" ++ (decimal found ++ (codes " most=" ++ (decimal most ++ 10 ∷ [])))))) }
{
    let word = limit_word(which);
    let line = format!(in alloc; "refused Limit {word} found={found} most={most}\n")?;
    Ok(line.into_bytes())
}

/// Returns the line of a refusal for a word that is outside the language.
fn outside_line(alloc: Global, at: usize, word: &[u8]) -> Result<Vec<u8>, AllocError>
    ensures { IfOk result (λ line. line.items ≡ codes "refused Outside at=" ++
        (decimal at ++ (codes " word=" ++ (word.now ++ 10 ∷ [])))) }
{
    let place = format!(in alloc; "refused Outside at={at} word=")?;
    let mut line = place.into_bytes();
    line.extend_from_slice(word)?;
    line.push(b'\n')?;
    Ok(line)
}

/// Returns the line of a refusal with a place or a number.
fn numbered_line(alloc: Global, kind: &str, number: usize) -> Result<Vec<u8>, AllocError>
    ensures { IfOk result (λ line. line.items
        ≡ codes "refused " ++ (kind.now ++ (codes "=" ++ (decimal number ++ 10 ∷ [])))) }
{
    let line = format!(in alloc; "refused {kind}={number}\n")?;
    Ok(line.into_bytes())
}

impl Refusal {
    /// Returns the line that tells the refusal.
    pub fn line(&self, alloc: Global) -> Result<Vec<u8>, AllocError>
        ensures { IfOk result (λ line. line.items ≡ refused_line self.now) }
    {
        match self {
            Refusal::TooLong { most } => numbered_line(alloc, "TooLong most", *most),
            Refusal::Bad { at } => numbered_line(alloc, "Bad at", *at),
            Refusal::Outside { at, word } => outside_line(alloc, *at, word),
            Refusal::Deep { at } => numbered_line(alloc, "Deep at", *at),
            Refusal::Syntax { at } => numbered_line(alloc, "Syntax at", *at),
            Refusal::Name { at } => numbered_line(alloc, "Name at", *at),
            Refusal::Typing { at } => numbered_line(alloc, "Typing at", *at),
            Refusal::Flow { at } => numbered_line(alloc, "Flow at", *at),
            Refusal::NoMain => Vec::from_slice(alloc, b"refused NoMain\n"),
            Refusal::Limit { which, found, most } => limit_line(alloc, *which, *found, *most),
            Refusal::NotBuilt => Vec::from_slice(alloc, b"refused NotBuilt\n"),
            Refusal::NotElf => Vec::from_slice(alloc, b"refused NotElf\n"),
            Refusal::WrongKind => Vec::from_slice(alloc, b"refused WrongKind\n"),
            Refusal::BadSegment => Vec::from_slice(alloc, b"refused BadSegment\n"),
            Refusal::Overlap => Vec::from_slice(alloc, b"refused Overlap\n"),
            Refusal::TooLarge => Vec::from_slice(alloc, b"refused TooLarge\n"),
        }
    }
}
