//! The command `print IN`.

ghost use Rattle.std.specs.Prelude.{◌≡◌, ◌≤◌, length, IfOk, IfErr, MatchResult};
ghost use Rattle.sr_base.specs.Meanings.{StoreMeaning};
ghost use Rattle.sr_command.specs.Loads.{most_text};
ghost use Rattle.sr_command.specs.Forms.Print.{printing};
ghost use Rattle.sr_command.specs.Jobs.{IsJobOf, StopsEarly, IsOnlyRead};
ghost use Rattle.sr_command.specs.Forms.Print.{IsPrinted};

use crate::job::Job;
use crate::loading::{MOST_TEXT, read_file};
use crate::refusal::{Refusal, text_refusal};
use crate::status::Status;
use ir_source::read_source;
use sr_base::Store;
use std::alloc::Global;

/// Returns the job of a text: its module in its printed form, or the refusal.
fn print_text<'a>(alloc: Global, text: &[u8]) -> Result<Job<'a>, Status>
    requires { length text.now ≤ most_text }
    ensures ok { IfOk result (IsPrinted text.now) }
    ensures err { IfErr result (λ status. status ≡ Status.NoMemory) }
{
    match read_source(alloc, text) {
        Err(error) => Ok(Job::Refuse {
            why: text_refusal(alloc, text, error)?,
        }),
        Ok(parsed) => {
            let text = ir_print::print(alloc, &parsed.module)?;
            Ok(Job::Whole {
                output: None,
                text,
                line: Vec::new(alloc),
            })
        }
    }
}

/// Returns what `print IN` has to do, once IN is read.
pub fn print<'a, S: Store>(alloc: Global, input: &str, store: &mut S) -> Result<Job<'a>, Status>
    ensures read { IsOnlyRead (S.meaning store.old) (S.meaning store.new) }
    ensures job { MatchResult result (IsJobOf (printing input.now) (S.meaning store.old).files)
        (StopsEarly (printing input.now) (S.meaning store.old) (S.meaning store.new)) }
{
    match read_file(alloc, input, MOST_TEXT, store) {
        Err(status) => Err(status),
        Ok(None) => Ok(Job::Refuse {
            why: Refusal::TooLong { most: MOST_TEXT },
        }),
        Ok(Some(text)) => print_text(alloc, &text),
    }
}
