//! The command `eval IN INPUT STEPS`.

ghost use Rattle.std.specs.Prelude.{◌≡◌, ◌≤◌, length, IfOk, IfErr, MatchResult};
ghost use Rattle.sr_base.specs.Meanings.{StoreMeaning};
ghost use Rattle.ir_eval.specs.Outcomes.{outcome_shape};
ghost use Rattle.sr_command.specs.Commands.{word_bytes};
ghost use Rattle.sr_command.specs.Loads.{most_text};
ghost use Rattle.sr_command.specs.Forms.Evaluate.{evaluating, why_word, undefined_line, IsTelling, IsEvaluation};
ghost use Rattle.sr_command.specs.Jobs.{IsJobOf, StopsEarly, IsOnlyRead};

use crate::forms::execute::ended_line;
use crate::job::Job;
use crate::loading::{MOST_INPUT, MOST_TEXT, read_file, read_input};
use crate::refusal::{Refusal, checked_refusal};
use crate::status::Status;
use ir_accept::check_source;
use ir_meaning::Outcome;
use ir_model::Why;
use sr_base::Store;
use std::alloc::{AllocError, Global};

/// Returns the word for why a module has no meaning.
fn why_word(why: Why) -> &'static str
    ensures { result.now ≡ why_word why }
{
    match why {
        Why::Divide => "Divide",
        Why::Poison => "Poison",
        Why::OutOfBounds => "OutOfBounds",
        Why::Dead => "Dead",
        Why::Compare => "Compare",
        Why::Unreachable => "Unreachable",
    }
}

/// Returns the line of a module that has no meaning.
fn undefined_line(alloc: Global, why: Why) -> Result<Vec<u8>, AllocError>
    ensures { IfOk result (λ line. line.items ≡ undefined_line why) }
{
    let word = why_word(why);
    let line = format!(in alloc; "undefined why={word}\n")?;
    Ok(line.into_bytes())
}

/// Returns the job of a run of a module that came to this.
fn tell_outcome<'a>(alloc: Global, outcome: Outcome) -> Result<Job<'a>, Status>
    ensures ok { IfOk result (IsTelling (outcome_shape outcome)) }
    ensures err { IfErr result (λ status. status ≡ Status.NoMemory) }
{
    match outcome {
        Outcome::Ended {
            output,
            status,
            steps,
        } => {
            let line = ended_line(alloc, status, steps)?;
            Ok(Job::Whole {
                output: None,
                text: output,
                line,
            })
        }
        Outcome::Undefined { why, output } => {
            let line = undefined_line(alloc, why)?;
            Ok(Job::Halt { text: output, line })
        }
        Outcome::StepsOver { output } => Ok(Job::Unended { text: output }),
    }
}

/// Returns the job of a text and an input: what the text's module comes to, or the refusal.
fn evaluate_text<'a>(
    alloc: Global,
    text: &[u8],
    input: &[u8],
    steps: u64,
) -> Result<Job<'a>, Status>
    requires { length text.now ≤ most_text }
    ensures ok { IfOk result (IsEvaluation text.now input.now steps) }
    ensures err { IfErr result (λ status. status ≡ Status.NoMemory) }
{
    match check_source(alloc, text) {
        Err(error) => Ok(Job::Refuse {
            why: checked_refusal(alloc, text, error)?,
        }),
        Ok(checked) => {
            let outcome = ir_meaning::eval(alloc, &checked, input, steps)?;
            tell_outcome(alloc, outcome)
        }
    }
}

/// Returns what `eval IN INPUT STEPS` has to do, once IN and INPUT are read and the module was run.
pub fn evaluate<'a, S: Store>(
    alloc: Global,
    text: &str,
    input: Option<&str>,
    steps: u64,
    store: &mut S,
) -> Result<Job<'a>, Status>
    ensures read { IsOnlyRead (S.meaning store.old) (S.meaning store.new) }
    ensures job { MatchResult result (IsJobOf (evaluating text.now (word_bytes input.entry) steps)
        (S.meaning store.old).files)
        (StopsEarly (evaluating text.now (word_bytes input.entry) steps)
        (S.meaning store.old) (S.meaning store.new)) }
{
    let Some(text) = read_file(alloc, text, MOST_TEXT, store)? else {
        return Ok(Job::Refuse {
            why: Refusal::TooLong { most: MOST_TEXT },
        });
    };
    let Some(content) = read_input(alloc, input, store)? else {
        return Ok(Job::Refuse {
            why: Refusal::TooLong { most: MOST_INPUT },
        });
    };
    evaluate_text(alloc, &text, &content, steps)
}
