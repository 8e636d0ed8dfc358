//! The whole number that stands after a minus or without one.
ghost use Rattle.std.specs.Prelude.{◌≡◌, ◌<◌, ◌≤◌, MatchOption};
ghost use Rattle.gm_text.specs.ValueText.{greatest, signed};

/// The number of the size, after a minus or without one, where it isn't too great.
pub fn signed_value(minus: bool, size: u64) -> Option<i64>
    ensures { MatchOption result (greatest minus < size) (λ n. (size ≤ greatest minus) × (n ≡ signed minus size)) }
{
    if minus {
        0i64.checked_sub_unsigned(size)
    } else {
        i64::try_from(size).ok()
    }
}
