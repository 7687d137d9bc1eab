//! Counting.
ghost use Rattle.std.specs.Prelude.{◌≡◌, ◌<◌, ◌^◌, suc};

/// One more. No list of events and no script comes near the end of the type, where the count would
/// stay as it is.
pub fn one_more(count: u64) -> u64
    ensures { count < 2 ^ 63 → result ≡ suc count }
{
    count.saturating_add(1)
}
