//! Counters of 64 bits that stay at their last value.
ghost use Rattle.std.specs.Prelude.{◌≡◌};
ghost use Rattle.perm_io.specs.Counts.{next_count, HasRisen};

/// One more, but a counter at its last value stays there.
pub(crate) fn next_count(count: u64) -> u64
    ensures value { result ≡ next_count count }
    ensures risen { HasRisen count result }
{
    count.saturating_add(1)
}
