//! The command `swiftr`: the call of `sr_command` over the files of the system and standard output.
#![tactic(auto)]

use sr_command::{Status, swiftr};
use sr_edge::{DirStore, StdSink};
use std::process::ExitCode;
use std::rt::Env;
use std::{env, io};

/// Returns the words of the command line, without the program's name.
fn command_words(rt: &(impl Env + AllocGlobal)) -> io::Result<Vec<String>> {
    let mut words = Vec::new(rt.alloc());
    for word in env::args(rt)?.skip(1) {
        words.push(word)?;
    }
    Ok(words)
}

fn main(rt: HostRuntime) -> ExitCode {
    let words = match command_words(&rt) {
        Ok(words) => words,
        Err(e) if e.kind() == io::ErrorKind::OutOfMemory => {
            return ExitCode::from(Status::NoMemory.code());
        }
        // Words that aren't text are none of the forms.
        Err(_) => Vec::new(rt.alloc()),
    };
    let mut store = DirStore::new(&rt);
    let mut out = StdSink::new(&rt);
    let mut note = StdSink::new(&rt);
    ExitCode::from(swiftr(rt.alloc(), &words, &mut store, &mut out, &mut note))
}
