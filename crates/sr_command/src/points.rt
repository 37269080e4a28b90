//! The points of the words that end with a status.

ghost use Rattle.std.specs.Prelude.{◌≡◌};
ghost use Rattle.sr_command.specs.Points.{exit_points};

use point_list::Point;

/// Returns the points of the words of `program::exit_words`: the status once it is in x10, and both
/// registers that the call reads.
pub fn exit_points() -> [Point; 3]
    ensures { result ≡ exit_points }
{
    let made = Point {
        pc: 0x10004,
        reg: 10,
    };
    let status = Point {
        pc: 0x10008,
        reg: 10,
    };
    let number = Point {
        pc: 0x10008,
        reg: 17,
    };
    [made, status, number]
}
