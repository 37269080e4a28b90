//! The words of the executable.

ghost use Rattle.std.specs.Prelude.{◌≡◌};
ghost use Rattle.sr_command.specs.Program.{exit_words};

/// Returns the words that end the process with a status: the status into x10, the number of the call
/// into x17, the call.
pub fn exit_words(status: u8) -> [u32; 3]
    ensures { result ≡ exit_words status }
{
    // addi x10,x0,status; addi x17,x0,93; ecall
    [
        0x0000_0513 + (u32::from(status) << 20),
        0x05d0_0893,
        0x0000_0073,
    ]
}
