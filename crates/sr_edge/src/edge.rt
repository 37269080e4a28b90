//! The real edge: files of the system, and standard output. They tell no content, and count each fault.

ghost use Rattle.std.specs.Prelude.{◌≤◌, length, IfOk, None};

use sr_base::{Sink, SinkError, Store, StoreError};
use std::alloc::Global;
use std::fs;
use std::io::{ErrorKind, Read};
use std::rt::Files;

/// The size in bytes of the pieces in which a file is read.
const PIECE: usize = 16_384;

/// The files of the system, by their paths.
#[derive(Drop)]
pub struct DirStore<'a, R> {
    rt: &'a R,
    read_faults: u64,
    write_faults: u64,
    write_wants: u64,
}

impl<'a, R> DirStore<'a, R> {
    /// Returns the files of the system, with no fault counted yet.
    pub fn new(rt: &'a R) -> Self {
        DirStore {
            rt,
            read_faults: 0,
            write_faults: 0,
            write_wants: 0,
        }
    }
}

/// Reads a file to its end, or until more than `max` bytes have come.
fn read_bounded<F: Read>(alloc: Global, file: &mut F, max: usize) -> Result<Vec<u8>, StoreError>
    ensures { IfOk result (λ bytes. length bytes.items ≤ max) }
{
    let mut bytes = Vec::new(alloc);
    let mut piece = [0u8; PIECE];
    for _ in 0..u64::MAX {
        match file.read(&mut piece) {
            Ok(0) => return Ok(bytes),
            Ok(count) => {
                if count > max - bytes.len() {
                    return Err(StoreError::TooLong);
                }
                if bytes.extend_from_slice(&piece[..count]).is_err() {
                    return Err(StoreError::OutOfMemory);
                }
            }
            Err(e) => {
                if e.kind() != ErrorKind::Interrupted {
                    return Err(StoreError::Failed);
                }
            }
        }
    }
    Err(StoreError::Failed)
}

/// Opens and reads a file; it has no fault where there is no such file.
fn read_file<R: Files>(rt: &R, alloc: Global, name: &str, max: usize) -> Result<Vec<u8>, StoreError>
    ensures { IfOk result (λ bytes. length bytes.items ≤ max) }
{
    match fs::open(rt, name) {
        Ok(mut file) => read_bounded(alloc, &mut file, max),
        Err(e) => match e.kind() {
            ErrorKind::NotFound => Err(StoreError::Absent),
            ErrorKind::OutOfMemory => Err(StoreError::OutOfMemory),
            _ => Err(StoreError::Failed),
        },
    }
}

impl<R: Files> Store for DirStore<'_, R> {
    ghost use Rattle.std.specs.Prelude.{None};

    ghost meaning = { λ s. record { files = None; read_faults = s.read_faults; write_faults = s.write_faults; write_wants = s.write_wants } };

    fn read(&mut self, alloc: Global, name: &str, max: usize) -> Result<Vec<u8>, StoreError> {
        match read_file(self.rt, alloc, name, max) {
            Err(StoreError::Failed) => {
                self.read_faults = self.read_faults.saturating_add(1);
                Err(StoreError::Failed)
            }
            Err(StoreError::Absent) => Err(StoreError::Absent),
            Err(StoreError::TooLong) => Err(StoreError::TooLong),
            Err(StoreError::OutOfMemory) => Err(StoreError::OutOfMemory),
            Ok(bytes) => Ok(bytes),
        }
    }

    fn write(&mut self, name: &str, bytes: &[u8]) -> Result<(), StoreError> {
        match fs::write(self.rt, name, bytes) {
            Ok(()) => Ok(()),
            Err(e) => {
                if e.kind() == ErrorKind::OutOfMemory {
                    self.write_wants = self.write_wants.saturating_add(1);
                    Err(StoreError::OutOfMemory)
                } else {
                    self.write_faults = self.write_faults.saturating_add(1);
                    Err(StoreError::Failed)
                }
            }
        }
    }
}

/// Standard output.
#[derive(Drop)]
pub struct StdSink<'a, R> {
    rt: &'a R,
    faults: u64,
}

impl<'a, R> StdSink<'a, R> {
    /// Returns standard output, with no fault counted yet.
    pub fn new(rt: &'a R) -> Self {
        StdSink { rt, faults: 0 }
    }
}

impl<R: Print> Sink for StdSink<'_, R> {
    ghost use Rattle.std.specs.Prelude.{None};

    ghost meaning = { λ s. record { taken = None; faults = s.faults; wants = 0 } };

    fn put(&mut self, piece: &[u8]) -> Result<usize, SinkError> {
        match self.rt.write_some(piece) {
            Ok(count) if count > 0 || piece.is_empty() => Ok(count),
            _ => {
                self.faults = self.faults.saturating_add(1);
                Err(SinkError::Failed)
            }
        }
    }
}
