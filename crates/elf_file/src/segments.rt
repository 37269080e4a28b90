//! What an executable puts into memory.

ghost use Rattle.std.specs.Prelude.{◌≡◌, map, IfOk};
ghost use Rattle.elf_file.specs.Extents.{range_of};

use crate::error::ElfError;
use crate::extents::{Extent, refusal};
use std::alloc::{AllocError, Global};
use std::marker::Model;

/// The bytes that a file holds of a segment.
#[derive(Debug, Drop)]
pub struct Bytes {
    items: Vec<u8>,
}

impl Model for Bytes {
    ghost use Rattle.std.specs.Prelude.{List, ℕ};

    ghost Value = { List ℕ };

    ghost view = { λ bytes. bytes.items.items };
}

impl Bytes {
    /// Makes a list of these bytes.
    pub fn new(items: Vec<u8>) -> Bytes
        ensures { result ≡ items.items }
    {
        Bytes { items }
    }

    /// Returns the bytes, in order.
    pub fn as_slice(&self) -> &[u8]
        ensures { result.now ≡ self.now }
    {
        self.items.as_slice()
    }
}

/// A segment of memory: `size` bytes from the address `base`, which hold `init` and then zeros.
///
/// The flags are 1 (executed), 2 (written) and 4 (read), added up, as in a program header. A segment
/// ends at 2^64 at the latest, and `init` is no longer than `size`.
#[derive(Debug, Drop)]
pub struct Segment {
    pub base: u64,
    pub size: u64,
    pub flags: u32,
    pub init: Bytes,
}

impl Model for Segment {
    ghost use Rattle.elf_file.specs.Image.{ImageSegment, IsSegment};

    ghost Value = { ImageSegment };

    ghost view = { λ s. record { base = s.base; size = s.size; flags = s.flags; init = s.init } };

    ghost invariant = { λ s. IsSegment (record { base = s.base; size = s.size; flags = s.flags; init = s.init }) };
}

/// The segments of an image, in the order of their program headers.
#[derive(Debug, Drop)]
pub struct Segments {
    items: Vec<Segment>,
}

impl Model for Segments {
    ghost use Rattle.std.specs.Prelude.{List};
    ghost use Rattle.elf_file.specs.Image.{ImageSegment};

    ghost Value = { List ImageSegment };

    ghost view = { λ segments. segments.items.items };
}

impl Segments {
    /// Makes a list of these segments.
    pub fn new(items: Vec<Segment>) -> Segments
        ensures { result ≡ items.items }
    {
        Segments { items }
    }

    /// Returns the segments, in order.
    pub fn as_slice(&self) -> &[Segment]
        ensures { result.now ≡ self.now }
    {
        self.items.as_slice()
    }
}

/// What an executable puts into memory: the address of its first instruction, and its segments.
///
/// No two segments share an address, and their sizes sum to at most 536,870,912.
#[derive(Debug, Drop)]
pub struct Image {
    pub begin: u64,
    pub segments: Segments,
}

impl Model for Image {
    ghost use Rattle.elf_file.specs.Image.{ProgramImage, IsImage};

    ghost Value = { ProgramImage };

    ghost view = { λ image. record { begin = image.begin; segments = image.segments } };

    ghost invariant = { λ image. IsImage (record { begin = image.begin; segments = image.segments }) };
}

impl Image {
    ghost use Rattle.std.specs.Prelude.{◌≡◌, ◌≤◌};
    ghost use Rattle.elf_file.specs.Reading.{IsAnswer, image_of};

    /// Makes an image that begins at this address and has these segments.
    ///
    /// # Errors
    ///
    /// `Overlap` where two segments share an address, or else `TooLarge` where they take too much memory;
    /// `OutOfMemory` where memory runs out.
    pub fn new(alloc: Global, begin: u64, segments: Segments) -> Result<Image, ElfError>
        ensures { IsAnswer result (image_of begin segments) }
    {
        if let Some(error) = refusal(extents_of(alloc, segments.as_slice())?) {
            return Err(error);
        }
        Ok(Image { begin, segments })
    }
}

/// Returns the addresses that the segments take.
fn extents_of(alloc: Global, segments: &[Segment]) -> Result<Vec<Extent>, AllocError>
    ensures { IfOk result (λ extents. extents.items ≡ map range_of segments.now) }
{
    let mut extents = Vec::with_capacity(alloc, segments.len())?;
    for segment in segments {
        extents.push(Extent {
            base: segment.base,
            size: segment.size,
        })?;
    }
    Ok(extents)
}
