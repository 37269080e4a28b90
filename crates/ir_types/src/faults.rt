//! The offset of what isn't proper.

ghost use Rattle.std.specs.Prelude.{◌≡◌};
ghost use Rattle.ir_types.specs.Looks.{fault_at};

/// Returns the offset of something, if it isn't proper.
pub fn fault_at(is_proper: bool, spot: usize) -> Option<usize>
    ensures { result ≡ fault_at is_proper spot }
{
    if is_proper { None } else { Some(spot) }
}
