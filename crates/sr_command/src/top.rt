//! The public call: words, a store and two sinks to a status.

ghost use Rattle.std.specs.Prelude.{◌≡◌, ◌≤◌, ◌⊎◌, ◌↔◌, None, Some, map, string_bytes, MatchResult};
ghost use Rattle.sr_base.specs.Counts.{Rose};
ghost use Rattle.sr_base.specs.Meanings.{StoreMeaning};
ghost use Rattle.sr_command.specs.Words.{form_of};
ghost use Rattle.sr_command.specs.Commands.{meant, HasGoodFlip};
ghost use Rattle.sr_command.specs.Forms.{promise_of};
ghost use Rattle.sr_command.specs.Jobs.{IsJobOf, StopsEarly, IsOnlyRead};
ghost use Rattle.sr_command.specs.Statuses.{status_of};
ghost use Rattle.sr_command.specs.Answers.{IsAnswer, world};

use crate::forms::compile::compile;
use crate::forms::disasm::disasm;
use crate::forms::evaluate::evaluate;
use crate::forms::execute::execute;
use crate::forms::print::print;
use crate::job::{Job, finish, tell};
use crate::status::Status;
use crate::words::{Command, parse_words};
use sr_base::{Sink, Store};
use std::alloc::Global;

/// Returns what a command has to do, once its files are read.
fn make_job<'a, S: Store>(
    alloc: Global,
    command: Command<'a>,
    store: &mut S,
) -> Result<Job<'a>, Status>
    requires { HasGoodFlip command }
    ensures read { IsOnlyRead (S.meaning store.old) (S.meaning store.new) }
    ensures job { MatchResult result
        (IsJobOf (promise_of (meant command.entry)) (S.meaning store.old).files)
        (StopsEarly (promise_of (meant command.entry))
        (S.meaning store.old) (S.meaning store.new)) }
{
    match command {
        Command::Compile { input, output } => compile(alloc, input, output, store),
        Command::Execute {
            program,
            input,
            steps,
            flip,
        } => execute(alloc, program, input, steps, flip, store),
        Command::Evaluate { text, input, steps } => evaluate(alloc, text, input, steps, store),
        Command::Disasm { program } => disasm(alloc, program, store),
        Command::Print { input } => print(alloc, input, store),
    }
}

/// Runs a command.
fn run_command<S: Store, O: Sink, N: Sink>(
    alloc: Global,
    command: Command<'_>,
    store: &mut S,
    out: &mut O,
    note: &mut N,
) -> Status
    requires { HasGoodFlip command }
    ensures answer { IsAnswer (Some (meant command.entry)) result
        (world (S.meaning store.old) (O.meaning out.old) (N.meaning note.old))
        (world (S.meaning store.new) (O.meaning out.new) (N.meaning note.new)) }
{
    let made = make_job(alloc, command, store);
    finish(alloc, made, store, out, note)
}

/// Runs the command that the words are, and answers its status.
fn run<S: Store, O: Sink, N: Sink>(
    alloc: Global,
    words: &[String],
    store: &mut S,
    out: &mut O,
    note: &mut N,
) -> Status
    ensures answer { IsAnswer (form_of (map string_bytes words.now)) result
        (world (S.meaning store.old) (O.meaning out.old) (N.meaning note.old))
        (world (S.meaning store.new) (O.meaning out.new) (N.meaning note.new)) }
{
    match parse_words(words) {
        None => {
            tell(note, Status::Usage.line());
            Status::Usage
        }
        Some(command) => run_command(alloc, command, store, out, note),
    }
}

/// Runs the command that the words are, without the program's name, and answers its status.
///
/// The files are those of `store`, what the command gives is put on `out`, and a line on how it ended on
/// `note`. No memory is taken once the first byte is written or put, but by the store and the sinks.
///
/// | status | comes | line |
/// |---|---|---|
/// | 0 | all was done | none, or how the program ended |
/// | 1 | the words have none of the forms | `usage` |
/// | 2 | a file is refused | `refused` and a kind |
/// | 3 | the program in a file traps, or the module of a text has no meaning | `trap`, the address and the cause, or `undefined` and why |
/// | 4 | the program or the module hasn't ended within its steps | `steps over` |
/// | 5 | only where the store counted a read fault | `read fault` |
/// | 6 | only where the store, `out` or `note` counted a fault | `write fault` |
/// | 7 | where memory runs out | `no memory` |
/// | 8 | a file that is to be read isn't there | `absent` |
pub fn swiftr<S: Store, O: Sink, N: Sink>(
    alloc: Global,
    words: &[String],
    store: &mut S,
    out: &mut O,
    note: &mut N,
) -> u8
    ensures known { result ≤ 8 }

    ensures answer { IsAnswer (form_of (map string_bytes words.now)) (status_of result)
        (world (S.meaning store.old) (O.meaning out.old) (N.meaning note.old))
        (world (S.meaning store.new) (O.meaning out.new) (N.meaning note.new)) }

    // The same by numbers, for the statuses that need no more to be said.
    ensures usage { (result ≡ 1) ↔ (form_of (map string_bytes words.now) ≡ None) }
    ensures read_fault { result ≡ 5 →
        Rose (S.meaning store.old).read_faults (S.meaning store.new).read_faults }
    ensures write_fault { result ≡ 6 →
        Rose (S.meaning store.old).write_faults (S.meaning store.new).write_faults
        ⊎ Rose (O.meaning out.old).faults (O.meaning out.new).faults
        ⊎ Rose (N.meaning note.old).faults (N.meaning note.new).faults }
{
    run(alloc, words, store, out, note).code()
}
