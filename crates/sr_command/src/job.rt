//! What is left to do once all files are read and all texts are made: to write, to put and to tell.

ghost use Rattle.std.specs.Prelude.{◌≡◌, ◌⊎◌, [], IsOk, IsSome, OnOk, OnErr, IfOk, IfErr, MatchResult};
ghost use Rattle.sr_base.specs.Bytes.{Takes, TakesPrefix};
ghost use Rattle.sr_base.specs.Meanings.{StoreMeaning, SinkMeaning};
ghost use Rattle.sr_command.specs.Words.{Form};
ghost use Rattle.sr_command.specs.Forms.{promise_of};
ghost use Rattle.sr_command.specs.Answers.{world, Tells, IsWritten, KeepsOthers, IsCausedBy, LeavesFilesOf, PutsOutOf, DeliversOf, NotesOf};
ghost use Rattle.sr_command.specs.Jobs.{FailsBy, FailsInHandOut, IsMade};
ghost use Rattle.sr_command.specs.Outputs.{output_name, output_bytes};

use crate::refusal::Refusal;
use crate::status::Status;
use sr_base::{Sink, SinkError, Store, StoreError, put_all};
use std::alloc::Global;

/// An executable and the name of the file that is to hold it.
#[derive(Drop)]
pub struct Output<'a> {
    pub name: &'a str,
    pub bytes: Vec<u8>,
}

/// What is left to do.
#[derive(Drop)]
pub enum Job<'a> {
    /// To write the output, if there is one, to put the text on `out`, and to put the line on `note`.
    Whole {
        output: Option<Output<'a>>,
        text: Vec<u8>,
        line: Vec<u8>,
    },
    /// To tell on `note` why a file is refused.
    Refuse {
        why: Refusal,
    },
    /// To put the output so far on `out`, and to tell on `note` by this line why the program was stopped.
    Halt {
        text: Vec<u8>,
        line: Vec<u8>,
    },
    /// To put the output so far on `out`, and to tell on `note` that the steps are over.
    Unended {
        text: Vec<u8>,
    },
}

/// Puts a text, and lets a failure be: the status stays, whatever the sink does.
pub fn tell<N: Sink>(sink: &mut N, text: &[u8])
    ensures { Tells (N.meaning sink.old) (N.meaning sink.new) text.now }
{
    let _ = put_all(sink, text);
}

/// Writes the output, if there is one.
fn write_output<S: Store>(output: &Option<Output<'_>>, store: &mut S) -> Result<(), Status>
    ensures ok { OnOk result (IsWritten (output_name output.now) (S.meaning store.new).files
        (output_bytes output.now)) }
    ensures err { IfErr result (FailsBy (S.meaning store.old).write_faults
        (S.meaning store.new).write_faults (S.meaning store.old).write_wants
        (S.meaning store.new).write_wants) }
    ensures named { OnErr result (IsSome (output_name output.now)) }
    ensures files { KeepsOthers (output_name output.now) (S.meaning store.old).files
        (S.meaning store.new).files }
    ensures read_faults { (S.meaning store.new).read_faults ≡ (S.meaning store.old).read_faults }
{
    match output {
        None => Ok(()),
        Some(output) => match store.write(output.name, &output.bytes) {
            Ok(()) => Ok(()),
            Err(StoreError::OutOfMemory) => Err(Status::NoMemory),
            Err(StoreError::Failed) => Err(Status::WriteFault),
            Err(StoreError::Absent) => unreachable!(),
            Err(StoreError::TooLong) => unreachable!(),
        },
    }
}

/// Puts a whole text.
fn put_text<O: Sink>(text: &[u8], out: &mut O) -> Result<(), Status>
    ensures ok { OnOk result (Takes (O.meaning out.old).taken (O.meaning out.new).taken text.now) }
    ensures prefix { TakesPrefix (O.meaning out.old).taken (O.meaning out.new).taken text.now }
    ensures err { IfErr result (FailsBy (O.meaning out.old).faults (O.meaning out.new).faults
        (O.meaning out.old).wants (O.meaning out.new).wants) }
    ensures empty { text.now ≡ [] → IsOk result × (out.new ≡ out.old) }
{
    match put_all(out, text) {
        Ok(()) => Ok(()),
        Err(SinkError::Failed) => Err(Status::WriteFault),
        Err(SinkError::OutOfMemory) => Err(Status::NoMemory),
    }
}

/// Writes the output and puts the text, in this order.
fn hand_out<S: Store, O: Sink>(
    output: &Option<Output<'_>>,
    text: &[u8],
    store: &mut S,
    out: &mut O,
) -> Result<(), Status>
    ensures ok { OnOk result (IsWritten (output_name output.now) (S.meaning store.new).files
        (output_bytes output.now) × Takes (O.meaning out.old).taken
        (O.meaning out.new).taken text.now) }
    ensures err { IfErr result (FailsInHandOut output.now text.now (S.meaning store.old)
        (S.meaning store.new) (O.meaning out.old) (O.meaning out.new)) }
    ensures files { KeepsOthers (output_name output.now) (S.meaning store.old).files
        (S.meaning store.new).files }
    ensures prefix { (out.new ≡ out.old) ⊎ TakesPrefix (O.meaning out.old).taken
        (O.meaning out.new).taken text.now }
{
    write_output(output, store)?;
    put_text(text, out)
}

/// Does the job, or tells why there is none, and answers the status.
pub fn finish<S: Store, O: Sink, N: Sink>(
    alloc: Global,
    made: Result<Job<'_>, Status>,
    store: &mut S,
    out: &mut O,
    note: &mut N,
) -> Status
    // Whatever the form promises that the job was made for, and from whatever state of the store it was read.
    ensures cause { (form : Form) (s : StoreMeaning) →
        IsMade (promise_of form) s (S.meaning store.old) made.entry →
        IsCausedBy (promise_of form) result (world s (O.meaning out.old) (N.meaning note.old))
        (world (S.meaning store.new) (O.meaning out.new) (N.meaning note.new)) }
    ensures files { (form : Form) (s : StoreMeaning) →
        IsMade (promise_of form) s (S.meaning store.old) made.entry →
        LeavesFilesOf (promise_of form) result (world s (O.meaning out.old) (N.meaning note.old))
        (world (S.meaning store.new) (O.meaning out.new) (N.meaning note.new)) }
    ensures out { (form : Form) (s : StoreMeaning) →
        IsMade (promise_of form) s (S.meaning store.old) made.entry →
        PutsOutOf (promise_of form) result (world s (O.meaning out.old) (N.meaning note.old))
        (world (S.meaning store.new) (O.meaning out.new) (N.meaning note.new)) }
    ensures delivers { (form : Form) (s : StoreMeaning) →
        IsMade (promise_of form) s (S.meaning store.old) made.entry →
        DeliversOf (promise_of form) result (world s (O.meaning out.old) (N.meaning note.old))
        (world (S.meaning store.new) (O.meaning out.new) (N.meaning note.new)) }
    ensures note { (form : Form) (s : StoreMeaning) →
        IsMade (promise_of form) s (S.meaning store.old) made.entry →
        NotesOf (promise_of form) result (world s (O.meaning out.old) (N.meaning note.old))
        (world (S.meaning store.new) (O.meaning out.new) (N.meaning note.new)) }
{
    match made {
        Err(status) => {
            tell(note, status.line());
            status
        }
        Ok(Job::Refuse { why }) => match why.line(alloc) {
            Ok(line) => {
                tell(note, &line);
                Status::Refused
            }
            Err(_) => {
                tell(note, Status::NoMemory.line());
                Status::NoMemory
            }
        },
        Ok(Job::Halt { text, line }) => {
            tell(out, &text);
            tell(note, &line);
            Status::Stopped
        }
        Ok(Job::Unended { text }) => {
            tell(out, &text);
            tell(note, Status::StepsOver.line());
            Status::StepsOver
        }
        Ok(Job::Whole { output, text, line }) => match hand_out(&output, &text, store, out) {
            Err(status) => {
                // The form's own line isn't put where `out` failed.
                tell(note, status.line());
                status
            }
            Ok(()) => match put_text(&line, note) {
                Ok(()) => Status::Done,
                // After a failed put nothing more is put on `note`.
                Err(status) => status,
            },
        },
    }
}
