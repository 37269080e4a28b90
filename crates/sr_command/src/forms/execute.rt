//! The commands `run EXE INPUT STEPS` and `flip EXE INPUT STEPS N R B`.

ghost use Rattle.std.specs.Option.{ForSome};
ghost use Rattle.std.specs.Prelude.{◌≡◌, IfOk, IfErr, MatchResult};
ghost use Rattle.sr_base.specs.Meanings.{StoreMeaning};
ghost use Rattle.rv_machine.specs.Outcomes.{IsOutcome};
ghost use Rattle.rv_model.specs.Run.{FlipFits, RunResult};
ghost use Rattle.sr_command.specs.Commands.{word_bytes};
ghost use Rattle.sr_command.specs.Forms.Execute.{executing, ended_line, cause_word, trap_line};
ghost use Rattle.sr_command.specs.Jobs.{IsJobOf, StopsEarly, IsOnlyRead};
ghost use Rattle.sr_command.specs.Forms.Execute.{IsReport};

use crate::job::Job;
use crate::loading::{Loaded, load};
use crate::status::Status;
use rv_machine::Outcome;
use rv_model::{Cause, Flip};
use sr_base::Store;
use std::alloc::{AllocError, Global};

/// Returns the line of a program that ended with a status after so many steps.
pub fn ended_line(alloc: Global, status: u8, steps: u64) -> Result<Vec<u8>, AllocError>
    ensures { IfOk result (λ line. line.items ≡ ended_line status steps) }
{
    let line = format!(in alloc; "ended status={status} steps={steps}\n")?;
    Ok(line.into_bytes())
}

/// Returns the word for why an instruction traps.
fn cause_word(cause: Cause) -> &'static str
    ensures { result.now ≡ cause_word cause }
{
    match cause {
        Cause::Fetch => "Fetch",
        Cause::Illegal => "Illegal",
        Cause::Load => "Load",
        Cause::Store => "Store",
        Cause::Call => "Call",
    }
}

/// Returns the line of a program whose instruction at `pc` traps.
fn trap_line(alloc: Global, pc: u64, cause: Cause) -> Result<Vec<u8>, AllocError>
    ensures { IfOk result (λ line. line.items ≡ trap_line pc cause) }
{
    let word = cause_word(cause);
    let line = format!(in alloc; "trap pc={pc:08x} cause={word}\n")?;
    Ok(line.into_bytes())
}

/// Returns the job of a run that came to this.
fn report<'a>(alloc: Global, outcome: Outcome) -> Result<Job<'a>, Status>
    ensures ok { (run : RunResult) → IsOutcome outcome run → IfOk result (IsReport run) }
    ensures err { IfErr result (λ status. status ≡ Status.NoMemory) }
{
    match outcome {
        Outcome::Ended { out, status, steps } => {
            let line = ended_line(alloc, status, steps)?;
            Ok(Job::Whole {
                output: None,
                text: out.into_bytes(),
                line,
            })
        }
        Outcome::Trap { pc, cause, out } => {
            let line = trap_line(alloc, pc, cause)?;
            Ok(Job::Halt {
                text: out.into_bytes(),
                line,
            })
        }
        Outcome::StepsOver { out } => Ok(Job::Unended {
            text: out.into_bytes(),
        }),
    }
}

/// Returns what `run EXE INPUT STEPS` has to do, once EXE and INPUT are read and the program has run;
/// and `flip` with the same words and a flip.
pub fn execute<'a, S: Store>(
    alloc: Global,
    program: &str,
    input: Option<&str>,
    steps: u64,
    flip: Option<Flip>,
    store: &mut S,
) -> Result<Job<'a>, Status>
    requires { ForSome flip FlipFits }
    ensures read { IsOnlyRead (S.meaning store.old) (S.meaning store.new) }
    ensures job { MatchResult result (IsJobOf (executing program.now
        (word_bytes input.entry) steps flip) (S.meaning store.old).files)
        (StopsEarly (executing program.now (word_bytes input.entry) steps flip)
        (S.meaning store.old) (S.meaning store.new)) }
{
    match load(alloc, program, input, store)? {
        Loaded::Refused { why } => Ok(Job::Refuse { why }),
        Loaded::Program { image, input } => {
            let outcome = rv_machine::run(alloc, &image, &input, steps, flip)?;
            report(alloc, outcome)
        }
    }
}
