//! The command, as one call over words, a store and two sinks: compiles a text into an executable that
//! survives a flipped register bit, runs executables with one flip or with none, lists their words, and
//! prints or evaluates the module of a text.
#![tactic(auto)]

mod first_form;
mod forms;
mod job;
mod laws;
mod loading;
mod points;
mod program;
mod refusal;
mod status;
mod top;
mod words;

pub use laws::files_decide_one_status;
pub use refusal::Refusal;
pub use status::Status;
pub use top::swiftr;
