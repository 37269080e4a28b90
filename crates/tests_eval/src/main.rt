//! Runs of a small program, printed as they end.
#![tactic(auto)]

ghost use Rattle.std.specs.Prelude.{List};
ghost use Rattle.ir_typed_runs.specs.TypedPrograms.{FunctionKinds, IsTyped};
ghost use Rattle.program_tables.specs.Shapes.{program_shape};

mod programs;

use crate::programs::roomed;
use ir_eval::eval;
use program_tables::Program;
use std::alloc::Global;
use std::io;

/// Runs a program for at most so many steps, and prints how it ended.
fn show(rt: &impl Print, alloc: Global, p: &Program, steps: u64) -> io::Result<()>
    requires { (kinds : List FunctionKinds) × IsTyped (program_shape p.now) kinds }
{
    let end = eval(alloc, p, &[], steps)?;
    println!(rt; "{end:?}")
}

/// Runs the program that counts through memory and a call.
fn show_roomed(rt: &impl Print, alloc: Global, n: u64, steps: u64) -> io::Result<()> {
    let p = roomed(alloc, n)?;
    show(rt, alloc, &p, steps)
}

fn main(rt: HostRuntime) -> io::Result<()> {
    show_roomed(&rt, rt.alloc(), 10, 74)?;
    show_roomed(&rt, rt.alloc(), 10, 73)?;
    show_roomed(&rt, rt.alloc(), 300, 5000)
}
