//! Bytes of the data under one flip: words that load and store them, and the calls of the environment that write
//! a byte and read one. Definitions and laws; there is no code here.
#![tactic(auto)]

ghost use Rattle.flip_bytes.specs.Accesses.{BytesAreLoaded, BytesAreStored};
ghost use Rattle.flip_bytes.specs.Calls.{BytesAreWritten, BytesAreRead};

/// States that a load by a right address brings the number of its bytes, extended as the instruction does, where
/// they are known, and goes on where they aren't.
pub fn bytes_are_loaded()
    ensures { BytesAreLoaded }
{}

/// States that a store to a right address leaves the lowest bytes of a value that is right, or bytes of which
/// nothing is known, and all else in memory as it was.
pub fn bytes_are_stored()
    ensures { BytesAreStored }
{}

/// States that the call that writes puts out a known byte of the data.
pub fn bytes_are_written()
    ensures { BytesAreWritten }
{}

/// States that the call that reads brings the first byte of the input to the data, or nothing at its end.
pub fn bytes_are_read()
    ensures { BytesAreRead }
{}
