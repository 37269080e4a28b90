//! Executables in the ELF-64 Object File Format, for RISC-V.
#![tactic(auto)]

ghost use Rattle.elf_file.specs.ReadBack.{ReadsBack, TextReadsBack};

mod error;
mod extents;
mod header;
mod reader;
mod segments;
mod writer;

pub use error::ElfError;
pub use reader::read;
pub use segments::{Bytes, Image, Segment, Segments};
pub use writer::write;

/// States that what [`write`] gives reads back, whatever the words and the data.
///
/// The image starts at 0x10000, where the text lies with flags 5, and has the data at 0x10000000 with
/// flags 6: `init` and then `extra` zeros. The words of its text segment are those written.
pub fn written_reads_back()
    ensures image { ReadsBack }
    ensures text { TextReadsBack }
{}
