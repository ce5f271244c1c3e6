//! Counts that stay at their last value, and calls by their numbers.

ghost use Rattle.std.specs.Prelude.{◌≡◌, ◌↔◌, Contains, IsTrue};
ghost use Rattle.outside.specs.Counts.{next_count};

/// One more, where there is one.
pub(crate) fn next_count(count: u64) -> u64
    ensures { result ≡ next_count count }
{
    count.saturating_add(1)
}

/// Whether the number of a call is among those that fail.
pub(crate) fn is_among(call: u64, fails: &[u32]) -> bool
    ensures { IsTrue result ↔ Contains fails.now call }
{
    fails.iter().any(|fail| u64::from(*fail) == call)
}
