//! Whole runs.

ghost use Rattle.std.specs.Option.{ForSome};
ghost use Rattle.std.specs.Prelude.{◌≡◌, IfOk};
ghost use Rattle.rv_machine.specs.Outcomes.{IsOutcome};
ghost use Rattle.rv_model.specs.Run.{FlipFits, later, run, struck};
ghost use Rattle.rv_model.specs.Start.{started};

use crate::processor::{Machine, Tick};
use crate::streams::Output;
use elf_file::Image;
use rv_model::{Cause, Flip};
use std::alloc::{AllocError, Global};

/// What a run came to.
#[derive(Debug, Drop)]
pub enum Outcome {
    /// The program ended, with this output and status, after so many instructions: the one that ended
    /// it is counted.
    Ended { out: Output, status: u8, steps: u64 },
    /// The instruction at this pc could not be executed.
    Trap { pc: u64, cause: Cause, out: Output },
    /// The run went on after as many instructions as were allowed.
    StepsOver { out: Output },
}

/// Returns the flip that is left after an instruction.
fn later(flip: Option<Flip>) -> Option<Flip>
    ensures { result ≡ later flip }
{
    let flip = flip?;
    if flip.at == 0 {
        None
    } else {
        Some(Flip {
            at: flip.at - 1,
            ..flip
        })
    }
}

/// Flips the bit whose turn it is.
fn strike(machine: &mut Machine, pending: Option<Flip>)
    requires { ForSome pending FlipFits }
    ensures { machine.new ≡ struck pending machine.old }
{
    if let Some(flip) = pending
        && flip.at == 0
    {
        machine.flip(flip.reg, flip.bit);
    }
}

/// Runs at most `steps` instructions of an image's program on this input, with a flip or none.
///
/// A flip that the run doesn't reach does nothing.
pub fn run(
    alloc: Global,
    image: &Image,
    input: &[u8],
    steps: u64,
    flip: Option<Flip>,
) -> Result<Outcome, AllocError>
    requires { ForSome flip FlipFits }
    ensures { IfOk result (λ outcome. IsOutcome outcome (run steps (started image.now input.now) flip)) }
{
    let mut machine = Machine::load(alloc, image, input)?;
    let mut pending = flip;
    for done in 0..steps {
        strike(&mut machine, pending);
        match machine.step()? {
            Tick::Went => pending = later(pending),
            Tick::Ended(status) => {
                return Ok(Outcome::Ended {
                    out: machine.into_out(),
                    status,
                    steps: done + 1,
                });
            }
            Tick::Trapped(pc, cause) => {
                return Ok(Outcome::Trap {
                    pc,
                    cause,
                    out: machine.into_out(),
                });
            }
        }
    }
    Ok(Outcome::StepsOver {
        out: machine.into_out(),
    })
}
