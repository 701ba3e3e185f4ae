//! Overwriting a value.
ghost use Rattle.std.specs.Prelude.{◌≡◌};

/// Overwrites a value, and drops the one that was there. An assignment does the same, but writes the drop out in the
/// caller, whose proof then grows with the type; a call does not.
pub fn put<T: Drop>(place: &mut T, value: T)
    ensures { place.new ≡ value }
{
    *place = value;
}
