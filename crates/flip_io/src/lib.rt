//! Input, output and the end of programs under one flip: single bytes go out and come in by a cell in the data, and
//! a program ends with a status that is computed. Definitions and laws; there is no code here.
#![tactic(auto)]

ghost use Rattle.flip_io.specs.Output.{BytesAreOutput};
ghost use Rattle.flip_io.specs.Input.{BytesAreInput};
ghost use Rattle.flip_io.specs.Ending.{ValuesEndPrograms};

/// States that a value is fetched and its lowest byte is put out.
pub fn bytes_are_output()
    ensures { BytesAreOutput }
{}

/// States that the next byte of the input, or -1 at its end, comes into three versions in slots.
pub fn bytes_are_input()
    ensures { BytesAreInput }
{}

/// States that a program ends with the lowest byte of a value that is fetched.
pub fn values_end_programs()
    ensures { ValuesEndPrograms }
{}
