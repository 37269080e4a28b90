//! The command `compile IN OUT`.

ghost use Rattle.std.specs.Prelude.{◌≡◌, ◌≤◌, length, IfOk, IfErr, MatchResult};
ghost use Rattle.sr_base.specs.Meanings.{StoreMeaning};
ghost use Rattle.point_list.specs.Points.{points_text};
ghost use Rattle.sr_command.specs.Forms.Compile.{compiling};
ghost use Rattle.sr_command.specs.Program.{executable};
ghost use Rattle.sr_command.specs.Points.{exit_points};
ghost use Rattle.sr_command.specs.Loads.{most_text};
ghost use Rattle.sr_command.specs.Jobs.{IsJobOf, StopsEarly, IsOnlyRead};
ghost use Rattle.sr_command.specs.Forms.Compile.{IsBuilt};

use crate::first_form::{exit_status, returned_number};
use crate::job::{Job, Output};
use crate::loading::{MOST_TEXT, read_file};
use crate::points::exit_points;
use crate::program::exit_words;
use crate::refusal::Refusal;
use crate::status::Status;
use point_list::{points, points_text};
use sr_base::Store;
use std::alloc::{AllocError, Global};

/// Returns the executable that ends with a status, and the text of its points.
fn executable(alloc: Global, status: u8) -> Result<(Vec<u8>, Vec<u8>), AllocError>
    ensures file { IfOk result (λ made. made.0.items ≡ executable status) }
    ensures points { IfOk result (λ made. made.1.items ≡ points_text exit_points) }
{
    let words = exit_words(status);
    let bytes = elf_file::write(alloc, &words, &[], 0)?;
    let points = points(alloc, &words, 0x10000, &exit_points())?;
    let text = points_text(alloc, &points)?;
    Ok((bytes, text))
}

/// Returns the job of a text: the executable for OUT and the text of its points, or the refusal.
fn build<'a>(alloc: Global, text: &[u8], output: &'a str) -> Result<Job<'a>, Status>
    requires { length text.now ≤ most_text }
    ensures ok { IfOk result (IsBuilt text.now output.now) }
    ensures err { IfErr result (λ status. status ≡ Status.NoMemory) }
{
    let Some(number) = returned_number(text) else {
        return Ok(Job::Refuse {
            why: Refusal::NotBuilt,
        });
    };
    let (bytes, text) = executable(alloc, exit_status(number))?;
    let output = Some(Output {
        name: output,
        bytes,
    });
    let line = Vec::new(alloc);
    Ok(Job::Whole { output, text, line })
}

/// Returns what `compile IN OUT` has to do, once IN is read.
pub fn compile<'a, S: Store>(
    alloc: Global,
    input: &str,
    output: &'a str,
    store: &mut S,
) -> Result<Job<'a>, Status>
    ensures read { IsOnlyRead (S.meaning store.old) (S.meaning store.new) }
    ensures job { MatchResult result (IsJobOf (compiling input.now output.now)
        (S.meaning store.old).files) (StopsEarly (compiling input.now output.now)
        (S.meaning store.old) (S.meaning store.new)) }
{
    match read_file(alloc, input, MOST_TEXT, store) {
        Err(status) => Err(status),
        Ok(None) => Ok(Job::Refuse {
            why: Refusal::TooLong { most: MOST_TEXT },
        }),
        Ok(Some(text)) => build(alloc, &text, output),
    }
}
