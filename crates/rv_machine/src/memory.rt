//! The memory of the machine.

ghost use Rattle.std.specs.Prelude.{◌≡◌, ◌+◌, ◌-◌, ◌<◌, ◌≤◌, is_some, length, slice_range, Some, None, IfOk, IfSome, MatchOption};
ghost use Rattle.std.specs.Bool.{MatchBool};
ghost use Rattle.rv_model.specs.Memory.{bytes_at, bytes_for, kept_in, overwritten, serves, stored, written};
ghost use Rattle.rv_model.specs.Start.{loaded_segment};

use elf_file::Segment;
use std::alloc::{AllocError, Global};
use std::marker::Model;

/// The flag of a segment whose bytes are executed.
pub const EXECUTED: u32 = 1;

/// The flag of a segment whose bytes are written.
pub const WRITTEN: u32 = 2;

/// The flag of a segment whose bytes are read.
pub const READ: u32 = 4;

/// A segment of memory, with the byte at each of its addresses.
#[derive(Debug, Drop)]
pub struct MemorySegment {
    base: u64,
    flags: u32,
    bytes: Vec<u8>,
}

impl Model for MemorySegment {
    ghost use Rattle.rv_model.specs.State.{LoadedSegment};

    ghost Value = { LoadedSegment };

    ghost view = { λ g. record { base = g.base; flags = g.flags; bytes = g.bytes.items } };
}

impl MemorySegment {
    /// Returns the segment with its bytes of the file, and then zeros.
    pub fn load(alloc: Global, segment: &Segment) -> Result<MemorySegment, AllocError>
        ensures { IfOk result (λ loaded. loaded ≡ loaded_segment segment.now) }
    {
        let size = segment.size as usize;
        let mut bytes = Vec::with_capacity(alloc, size)?;
        bytes.extend_from_slice(segment.init.as_slice())?;
        bytes.resize(size, 0)?;
        Ok(MemorySegment {
            base: segment.base,
            flags: segment.flags,
            bytes,
        })
    }

    /// Finds where the bytes at the address begin in the segment, where it has the flag and all of them.
    fn place_of(&self, flag: u32, address: u64, count: u64) -> Option<usize>
        requires { 0 < flag }
        ensures served { is_some result ≡ serves flag address count self.now }
        ensures from { IfSome result (λ from. from ≡ address - self.now.base) }
        ensures room { IfSome result (λ from. from + count ≤ length self.now.bytes) }
    {
        let size = self.bytes.len() as u64;
        if self.flags / flag % 2 != 1 || address < self.base {
            return None;
        }
        let from = address - self.base;
        if size < from || size - from < count {
            return None;
        }
        Some(from as usize)
    }

    /// Returns the bytes at the address, where the segment has the flag and all of them.
    fn part(&self, flag: u32, address: u64, count: u64) -> Option<&[u8]>
        requires { 0 < flag }
        ensures served { is_some result ≡ serves flag address count self.now }
        ensures size { IfSome result (λ part. length part.now ≡ count) }
        ensures bytes { IfSome result (λ part. part.now ≡ slice_range self.now.bytes (address - self.now.base) (address - self.now.base + count)) }
    {
        let from = self.place_of(flag, address, count)?;
        Some(&self.bytes[from..from + count as usize])
    }

    /// Writes the bytes at the address, where the segment may be written and has all of them; whether it does.
    fn overwrite(&mut self, address: u64, bytes: &[u8]) -> bool
        ensures served { result ≡ serves written address (length bytes.now) self.old }
        ensures bytes { MatchBool result (self.new ≡ overwritten address bytes.now self.old) (self.new ≡ self.old) }
    {
        match self.place_of(WRITTEN, address, bytes.len() as u64) {
            Some(from) => {
                self.bytes[from..from + bytes.len()].copy_from_slice(bytes);
                true
            }
            None => false,
        }
    }
}

/// Returns the bytes at the address, where a segment with the flag has all of them.
pub fn bytes_at(segments: &[MemorySegment], flag: u32, address: u64, count: u64) -> Option<&[u8]>
    requires { 0 < flag }
    ensures size { IfSome result (λ bytes. length bytes.now ≡ count) }
    ensures bytes { MatchOption result (bytes_at flag address count segments.now ≡ None) (λ bytes. bytes_at flag address count segments.now ≡ Some bytes.now) }
{
    for segment in segments {
        if let Some(bytes) = segment.part(flag, address, count) {
            return Some(bytes);
        }
    }
    None
}

/// Returns the bytes at the address, where a segment that is read has all of them, or where there are none.
pub fn bytes_for(segments: &[MemorySegment], address: u64, count: u64) -> Option<&[u8]>
    ensures size { IfSome result (λ bytes. length bytes.now ≡ count) }
    ensures bytes { MatchOption result (bytes_for address count segments.now ≡ None) (λ bytes. bytes_for address count segments.now ≡ Some bytes.now) }
{
    if count == 0 {
        Some(&[])
    } else {
        bytes_at(segments, READ, address, count)
    }
}

/// Writes the bytes at the address, where a segment that is written has all of them; whether one has.
pub fn store(segments: &mut [MemorySegment], address: u64, bytes: &[u8]) -> bool
    ensures { MatchBool result (stored address bytes.now segments.old ≡ Some segments.new) ((stored address bytes.now segments.old ≡ None) × (segments.new ≡ segments.old)) }
{
    for i in 0..segments.len() {
        if segments[i].overwrite(address, bytes) {
            return true;
        }
    }
    false
}

/// Writes the bytes at the address, where a segment that is written has all of them, or where there are
/// none; whether this was done.
pub fn keep(segments: &mut [MemorySegment], address: u64, bytes: &[u8]) -> bool
    ensures { MatchBool result (kept_in address bytes.now segments.old ≡ Some segments.new) ((kept_in address bytes.now segments.old ≡ None) × (segments.new ≡ segments.old)) }
{
    bytes.is_empty() || store(segments, address, bytes)
}
