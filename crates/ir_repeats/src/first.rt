//! The least of the offsets that were found.

ghost use Rattle.std.specs.Prelude.{◌≡◌};
ghost use Rattle.ir_repeats.specs.Least.{least_of, first_of};

/// Returns the lesser of an offset that was found, if one was, and another one.
pub fn least_of(found: Option<usize>, at: usize) -> usize
    ensures { result ≡ least_of found at }
{
    match found {
        None => at,
        Some(found) => found.min(at),
    }
}

/// Returns the lesser of two offsets, of which each may not be there.
pub fn first_of(one: Option<usize>, other: Option<usize>) -> Option<usize>
    ensures { result ≡ first_of one other }
{
    match one {
        None => other,
        Some(at) => Some(least_of(other, at)),
    }
}
