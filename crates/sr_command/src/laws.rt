//! The laws of what the command promises.

ghost use Rattle.std.specs.Prelude.{◌≡◌, Option, IsSome};
ghost use Rattle.sr_base.specs.Files.{Files};
ghost use Rattle.sr_command.specs.Words.{Form};
ghost use Rattle.sr_command.specs.Promise.{Decides};
ghost use Rattle.sr_command.specs.Forms.{promise_of};
ghost use Rattle.sr_command.specs.declared.status.Status.{Status};

/// Proves that files which are told decide one status of each form of words at most: so done, refused,
/// stopped, gone on and absent shut one another out.
pub fn files_decide_one_status()
    ensures { (form : Form) (files : Option Files) (a b : Status) → IsSome files →
        Decides (promise_of form) files a → Decides (promise_of form) files b → a ≡ b }
{}
