//! What the compiler asks of the world: files to read and write, and places to put bytes.

ghost use Rattle.std.specs.Prelude.{◌≡◌, ◌≢◌, ◌<◌, ◌≤◌, [], length, take, Some, is_some, IsOk, IfOk, IfErr, OnOk, OnErr, IsErrOf};
ghost use Rattle.sr_base.specs.Counts.{Rose};
ghost use Rattle.sr_base.specs.Bytes.{Takes, TakesPrefix};
ghost use Rattle.sr_base.specs.Files.{Holds, SameBut, RefusesRead, LeavesPart};
ghost use Rattle.sr_base.specs.Meanings.{StoreMeaning, SinkMeaning};

use std::alloc::Global;
use thiserror::Error;

/// Why a store did not read or write a file.
#[derive(Clone, Copy, Debug, PartialEq, Eq, Error)]
pub enum StoreError {
    /// The device failed.
    #[error("the store failed")]
    Failed,
    /// There is no file of this name.
    #[error("no such file")]
    Absent,
    /// The file has more bytes than were asked for.
    #[error("the file is too long")]
    TooLong,
    /// There was no memory.
    #[error("out of memory")]
    OutOfMemory,
}

/// Why a sink took nothing of a piece.
#[derive(Clone, Copy, Debug, PartialEq, Eq, Error)]
pub enum SinkError {
    /// The device failed.
    #[error("the sink failed")]
    Failed,
    /// There was no memory.
    #[error("out of memory")]
    OutOfMemory,
}

/// Files by name.
///
/// A store may tell its files or not; what a clause says of files it says as far as they are told.
/// A counter of faults or wants never falls, and stays at 2^64 - 1 once it is there.
pub trait Store {
    /// The files, where they are told, and the counts of read faults, write faults and write wants.
    ghost meaning: { Self → StoreMeaning };

    /// Reads the whole file `name`, of at most `max` bytes.
    ///
    /// Where the read doesn't fail for want of memory or of the device, `Absent` comes exactly where no
    /// such file stands, and `TooLong` exactly where it has more than `max` bytes. Neither is a fault.
    fn read(&mut self, alloc: Global, name: &str, max: usize) -> Result<Vec<u8>, StoreError>
        ensures content { IfOk result (λ bytes. Holds (meaning self.old).files name.now (Some bytes.items)) }
        ensures within { IfOk result (λ bytes. length bytes.items ≤ max) }
        ensures refused { IfErr result (RefusesRead (meaning self.old).files name.now max) }
        ensures failed { IsErrOf result StoreError.Failed → Rose (meaning self.old).read_faults (meaning self.new).read_faults }

        // A read changes no file, and no count but that of read faults, which never falls.
        ensures files { (meaning self.new).files ≡ (meaning self.old).files }
        ensures later { (meaning self.old).read_faults ≤ (meaning self.new).read_faults }
        ensures write_faults { (meaning self.new).write_faults ≡ (meaning self.old).write_faults }
        ensures write_wants { (meaning self.new).write_wants ≡ (meaning self.old).write_wants };

    /// Makes the file `name` hold the bytes, whether it stood before or not.
    ///
    /// After an error the file holds what it held, nothing, or a prefix of the bytes. The other files stay,
    /// whatever the answer.
    fn write(&mut self, name: &str, bytes: &[u8]) -> Result<(), StoreError>
        ensures written { OnOk result (Holds (meaning self.new).files name.now (Some bytes.now)) }
        ensures left { OnErr result (LeavesPart name.now bytes.now (meaning self.old).files (meaning self.new).files) }
        ensures others { SameBut name.now (meaning self.old).files (meaning self.new).files }
        ensures told { is_some (meaning self.new).files ≡ is_some (meaning self.old).files }

        // Only these two errors come, each with its count.
        ensures failed { IsErrOf result StoreError.Failed → Rose (meaning self.old).write_faults (meaning self.new).write_faults }
        ensures out_of_memory { IsErrOf result StoreError.OutOfMemory → Rose (meaning self.old).write_wants (meaning self.new).write_wants }
        ensures absent { IfErr result (λ e. e ≢ StoreError.Absent) }
        ensures too_long { IfErr result (λ e. e ≢ StoreError.TooLong) }

        // No count falls, and a write leaves that of read faults.
        ensures faults_later { (meaning self.old).write_faults ≤ (meaning self.new).write_faults }
        ensures wants_later { (meaning self.old).write_wants ≤ (meaning self.new).write_wants }
        ensures read_faults { (meaning self.new).read_faults ≡ (meaning self.old).read_faults };
}

/// A place that takes bytes, in order.
///
/// A sink may tell the bytes that it has taken or not; what a clause says of them it says as far as they
/// are told.
pub trait Sink {
    /// The bytes taken, where they are told, and the counts of faults and of wants of memory.
    ghost meaning: { Self → SinkMeaning };

    /// Takes a prefix of the piece and answers its length, at least 1 where the piece isn't empty.
    ///
    /// After an error nothing of the piece was taken.
    fn put(&mut self, piece: &[u8]) -> Result<usize, SinkError>
        ensures within { IfOk result (λ n. n ≤ length piece.now) }
        ensures some { IfOk result (λ n. 0 < length piece.now → 0 < n) }
        ensures taken { IfOk result (λ n. Takes (meaning self.old).taken (meaning self.new).taken (take n piece.now)) }
        ensures untaken { OnErr result ((meaning self.new).taken ≡ (meaning self.old).taken) }

        // Each error comes with its count, and no count falls.
        ensures failed { IsErrOf result SinkError.Failed → Rose (meaning self.old).faults (meaning self.new).faults }
        ensures out_of_memory { IsErrOf result SinkError.OutOfMemory → Rose (meaning self.old).wants (meaning self.new).wants }
        ensures faults_later { (meaning self.old).faults ≤ (meaning self.new).faults }
        ensures wants_later { (meaning self.old).wants ≤ (meaning self.new).wants };
}

/// Puts all the bytes, piece by piece, until the sink has taken them or fails.
///
/// No empty piece is put, and this takes no memory itself. After an error the sink has taken a prefix of
/// the bytes.
pub fn put_all<K: Sink>(sink: &mut K, bytes: &[u8]) -> Result<(), SinkError>
    ensures all { OnOk result (Takes (K.meaning sink.old).taken (K.meaning sink.new).taken bytes.now) }
    ensures prefix { TakesPrefix (K.meaning sink.old).taken (K.meaning sink.new).taken bytes.now }
    ensures empty { bytes.now ≡ [] → IsOk result × (sink.new ≡ sink.old) }

    // Each error comes with its count, and no count falls.
    ensures failed { IsErrOf result SinkError.Failed → Rose (K.meaning sink.old).faults (K.meaning sink.new).faults }
    ensures out_of_memory { IsErrOf result SinkError.OutOfMemory → Rose (K.meaning sink.old).wants (K.meaning sink.new).wants }
    ensures faults_later { (K.meaning sink.old).faults ≤ (K.meaning sink.new).faults }
    ensures wants_later { (K.meaning sink.old).wants ≤ (K.meaning sink.new).wants }
{
    let mut done = 0;
    while done < bytes.len() {
        done += sink.put(&bytes[done..])?;
    }
    Ok(())
}
