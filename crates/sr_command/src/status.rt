//! How the command ends.

ghost use Rattle.std.specs.Prelude.{◌≡◌, ◌≤◌};
ghost use Rattle.sr_command.specs.Statuses.{status_of, line_of};

use std::alloc::AllocError;

/// The status of the command.
#[derive(Clone, Copy, Debug, PartialEq, Eq)]
pub enum Status {
    /// All was done.
    Done = 0,
    /// The words have none of the forms.
    Usage = 1,
    /// A file that is there was refused.
    Refused = 2,
    /// The program of a file trapped, or the module of a text has no meaning.
    Stopped = 3,
    /// The program of a file, or the module of a text, hadn't ended when its steps were over.
    StepsOver = 4,
    /// The store failed to read.
    ReadFault = 5,
    /// The store failed to write, or a sink failed.
    WriteFault = 6,
    /// There was no memory.
    NoMemory = 7,
    /// There is no file of a name that is to be read.
    Absent = 8,
}

impl From<AllocError> for Status {
    ghost use Rattle.sr_command.specs.declared.status.Status.TheVariants.{NoMemory};

    ghost from_gives = { λ _ status. status ≡ NoMemory };

    fn from(_error: AllocError) -> Status {
        Status::NoMemory
    }
}

impl Status {
    /// Returns the number with which the process ends.
    pub fn code(self) -> u8
        ensures status { status_of result ≡ self }
        ensures known { result ≤ 8 }
    {
        self as u8
    }

    /// Returns the line that tells the status, where it needs no more to be said.
    pub fn line(self) -> &'static [u8]
        ensures { result.now ≡ line_of self }
    {
        match self {
            Status::Done => b"",
            Status::Usage => b"usage\n",
            Status::Refused => b"refused\n",
            Status::Stopped => b"stopped\n",
            Status::StepsOver => b"steps over\n",
            Status::ReadFault => b"read fault\n",
            Status::WriteFault => b"write fault\n",
            Status::NoMemory => b"no memory\n",
            Status::Absent => b"absent\n",
        }
    }
}
