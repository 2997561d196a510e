//! Readings of a node's clock.

ghost use Rattle.std.specs.Prelude.{◌≡◌};
ghost use Rattle.grasp_types.specs.Reading.{reading_after};

/// The reading of a clock so many milliseconds after this one. It stops at the greatest `u64`.
pub fn reading_after(now: u64, millis: u64) -> u64
    ensures { result ≡ reading_after now millis }
{
    now.saturating_add(millis)
}
