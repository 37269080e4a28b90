//! Why a file is no executable that can be loaded.

use std::alloc::{AllocError, AllocFailed};
use thiserror::Error;

/// The first of these that holds of a file, in this order; memory may run out at any point.
#[derive(Clone, Copy, Debug, PartialEq, Eq, Error)]
pub enum ElfError {
    /// The file does not begin with a file header of ELF.
    #[error("not an ELF file")]
    NotElf,
    /// The file is no ELF64 executable for RISC-V, lowest byte first.
    #[error("not an ELF64 executable for RISC-V")]
    WrongKind,
    /// The program headers, or a segment's bytes, do not lie in the file, or a segment does not fit
    /// its memory.
    #[error("a segment lies outside the file or outside memory")]
    BadSegment,
    /// Two segments share an address.
    #[error("two segments share an address")]
    Overlap,
    /// The segments take more than 536,870,912 bytes of memory.
    #[error("the segments take too much memory")]
    TooLarge,
    /// No memory was left to hold the image.
    #[error("out of memory")]
    OutOfMemory,
}

impl From<AllocError> for ElfError {
    ghost use Rattle.std.specs.Prelude.{◌≡◌};
    ghost use Rattle.elf_file.specs.declared.error.ElfError.TheVariants.{OutOfMemory};

    ghost from_gives = { λ _ error. error ≡ OutOfMemory };

    fn from(_error: AllocError) -> ElfError {
        ElfError::OutOfMemory
    }
}

impl<T: Drop> From<AllocFailed<T>> for ElfError {
    ghost use Rattle.std.specs.Prelude.{◌≡◌};
    ghost use Rattle.elf_file.specs.declared.error.ElfError.TheVariants.{OutOfMemory};

    ghost from_gives = { λ _ error. error ≡ OutOfMemory };

    fn from(_error: AllocFailed<T>) -> ElfError {
        ElfError::OutOfMemory
    }
}
