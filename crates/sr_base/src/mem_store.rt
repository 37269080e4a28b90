//! A store in memory, some of whose calls fail.

ghost use Rattle.std.specs.Prelude.{◌≡◌, ◌↔◌, IsTrue, OnOk, OnErr, Contains};
ghost use Rattle.std.specs.FinMap.{insert};
ghost use Rattle.sr_base.specs.Memory.{files_of};

use crate::outside::{Store, StoreError};
use std::alloc::{AllocError, Global};
use std::collections::BTreeMap;
use std::marker::Model;

/// A store that holds its files in memory, and fails at the calls that it is told.
///
/// Calls of `read` and `write` are numbered from 0, and the number stays at 2^64 - 1 once it is there.
/// A contract sees a store as its `StoreState`.
#[derive(Drop)]
pub struct MemStore {
    files: BTreeMap<String, Vec<u8>>,
    failing: Vec<u64>,
    calls: u64,
    read_faults: u64,
    write_faults: u64,
    write_wants: u64,
}

impl Model for MemStore {
    ghost use Rattle.sr_base.specs.Memory.{StoreState, store_state_code, files_of};

    ghost Value = { StoreState };

    ghost coded = { store_state_code };

    ghost view = { λ s. record {
      files = files_of s.files;
      failing = s.failing.items;
      calls = s.calls;
      read_faults = s.read_faults;
      write_faults = s.write_faults;
      write_wants = s.write_wants;
    } };
}

impl MemStore {
    ghost use Rattle.std.specs.Option.{option_copied};
    ghost use Rattle.std.specs.FinMap.{empty, get};
    ghost use Rattle.sr_base.specs.Counts.{capped_sum, raised};

    /// Makes a store with no files, whose calls of these numbers fail.
    pub fn new(failing: Vec<u64>) -> MemStore
        ensures { result
            ≡ record { files = empty; failing = failing.items; calls = 0; read_faults = 0; write_faults = 0; write_wants = 0 } }
    {
        let alloc = *failing.allocator();
        MemStore {
            files: BTreeMap::new(alloc),
            failing,
            calls: 0,
            read_faults: 0,
            write_faults: 0,
            write_wants: 0,
        }
    }

    /// Puts a file, or replaces it. This is no call that is numbered, and it raises no count.
    pub fn add(&mut self, name: &str, bytes: &[u8]) -> Result<(), AllocError>
        ensures ok { OnOk result (self.new ≡ record self.old { files = insert self.old.files name.now bytes.now }) }
        ensures err { OnErr result (self.new ≡ self.old) }
    {
        let alloc = *self.failing.allocator();
        put_file(alloc, &mut self.files, name, bytes)
    }

    /// Returns the bytes of a file, or `None` where there is no such file.
    pub fn file(&self, name: &str) -> Option<&[u8]>
        ensures { option_copied result ≡ get self.now.files name.now }
    {
        match self.files.get(name) {
            Some(bytes) => Some(bytes.as_slice()),
            None => None,
        }
    }

    /// Returns how many faults there were: of reads and of writes together, at most 2^64 - 1.
    pub fn count(&self) -> u64
        ensures { result ≡ capped_sum self.now.read_faults self.now.write_faults }
    {
        self.read_faults.saturating_add(self.write_faults)
    }

    /// Numbers this call, and says whether it is one of those that fail.
    fn is_next_failing(&mut self) -> bool
        ensures failing { IsTrue result ↔ Contains self.old.failing self.old.calls }
        ensures counted { self.new ≡ record self.old { calls = raised self.old.calls } }
    {
        let is_failing = self.failing.contains(&self.calls);
        self.calls = self.calls.saturating_add(1);
        is_failing
    }
}

/// Puts a copy of the bytes under a copy of the name.
fn put_file(
    alloc: Global,
    files: &mut BTreeMap<String, Vec<u8>>,
    name: &str,
    bytes: &[u8],
) -> Result<(), AllocError>
    ensures ok { OnOk result (files_of files.new ≡ insert (files_of files.old) name.now bytes.now) }
    ensures err { OnErr result (files_of files.new ≡ files_of files.old) }
{
    let key = String::from_str(alloc, name)?;
    let content = Vec::from_slice(alloc, bytes)?;
    files.insert(key, content)?;
    Ok(())
}

impl Store for MemStore {
    ghost use Rattle.std.specs.Prelude.{◌≡◌, ◌≢◌, ◌↔◌, ◌≤◌, length, Some, is_some, IfOk, IfErr, OnOk, OnErr, IsErrOf, Contains};
    ghost use Rattle.std.specs.FinMap.{get, insert};
    ghost use Rattle.sr_base.specs.Counts.{Rose, raised};
    ghost use Rattle.sr_base.specs.Files.{Holds, SameBut, RefusesRead, LeavesPart};

    ghost meaning = { λ s. record { files = Some s.files; read_faults = s.read_faults; write_faults = s.write_faults; write_wants = s.write_wants } };

    /// Fails at the numbers that the store was made with, and nowhere else.
    fn read(&mut self, alloc: Global, name: &str, max: usize) -> Result<Vec<u8>, StoreError>
        ensures content { IfOk result (λ bytes. Holds (Some self.old.files) name.now (Some bytes.items)) }
        ensures within { IfOk result (λ bytes. length bytes.items ≤ max) }
        ensures refused { IfErr result (RefusesRead (Some self.old.files) name.now max) }
        ensures failed { IsErrOf result StoreError.Failed → Rose self.old.read_faults self.new.read_faults }
        ensures files { Some self.new.files ≡ Some self.old.files }
        ensures later { self.old.read_faults ≤ self.new.read_faults }
        ensures write_faults { self.new.write_faults ≡ self.old.write_faults }
        ensures write_wants { self.new.write_wants ≡ self.old.write_wants }

        // Which calls fail, and what a call leaves.
        ensures listed { IsErrOf result StoreError.Failed ↔ Contains self.old.failing self.old.calls }
        ensures counted { self.new ≡ record self.old { calls = raised self.old.calls; read_faults = self.new.read_faults } }
        ensures faulted { IsErrOf result StoreError.Failed → self.new.read_faults ≡ raised self.old.read_faults }
        ensures unfaulted { result ≢ Err StoreError.Failed → self.new.read_faults ≡ self.old.read_faults }
    {
        if self.is_next_failing() {
            self.read_faults = self.read_faults.saturating_add(1);
            return Err(StoreError::Failed);
        }
        let Some(bytes) = self.files.get(name) else {
            return Err(StoreError::Absent);
        };
        if bytes.len() > max {
            return Err(StoreError::TooLong);
        }
        match Vec::from_slice(alloc, bytes) {
            Ok(copy) => Ok(copy),
            Err(_) => Err(StoreError::OutOfMemory),
        }
    }

    /// Fails at the numbers that the store was made with. A write that fails or wants memory leaves every
    /// file as it was.
    fn write(&mut self, name: &str, bytes: &[u8]) -> Result<(), StoreError>
        ensures written { OnOk result (Holds (Some self.new.files) name.now (Some bytes.now)) }
        ensures left { OnErr result (LeavesPart name.now bytes.now (Some self.old.files) (Some self.new.files)) }
        ensures others { SameBut name.now (Some self.old.files) (Some self.new.files) }
        ensures told { is_some (Some self.new.files) ≡ is_some (Some self.old.files) }
        ensures failed { IsErrOf result StoreError.Failed → Rose self.old.write_faults self.new.write_faults }
        ensures out_of_memory { IsErrOf result StoreError.OutOfMemory → Rose self.old.write_wants self.new.write_wants }
        ensures absent { IfErr result (λ e. e ≢ StoreError.Absent) }
        ensures too_long { IfErr result (λ e. e ≢ StoreError.TooLong) }
        ensures faults_later { self.old.write_faults ≤ self.new.write_faults }
        ensures wants_later { self.old.write_wants ≤ self.new.write_wants }
        ensures read_faults { self.new.read_faults ≡ self.old.read_faults }

        // Which calls fail, and what a call leaves.
        ensures listed { IsErrOf result StoreError.Failed ↔ Contains self.old.failing self.old.calls }
        ensures counted { self.new
            ≡ record self.old {
              files = self.new.files;
              calls = raised self.old.calls;
              write_faults = self.new.write_faults;
              write_wants = self.new.write_wants;
            } }
        ensures ok { OnOk result (self.new.files ≡ insert self.old.files name.now bytes.now) }
        ensures err { OnErr result (self.new.files ≡ self.old.files) }
        ensures faulted { IsErrOf result StoreError.Failed → self.new.write_faults ≡ raised self.old.write_faults }
        ensures unfaulted { result ≢ Err StoreError.Failed → self.new.write_faults ≡ self.old.write_faults }
        ensures wanted { IsErrOf result StoreError.OutOfMemory → self.new.write_wants ≡ raised self.old.write_wants }
        ensures unwanted { result ≢ Err StoreError.OutOfMemory → self.new.write_wants ≡ self.old.write_wants }
    {
        if self.is_next_failing() {
            self.write_faults = self.write_faults.saturating_add(1);
            return Err(StoreError::Failed);
        }
        let alloc = *self.failing.allocator();
        match put_file(alloc, &mut self.files, name, bytes) {
            Ok(()) => Ok(()),
            Err(_) => {
                self.write_wants = self.write_wants.saturating_add(1);
                Err(StoreError::OutOfMemory)
            }
        }
    }
}
