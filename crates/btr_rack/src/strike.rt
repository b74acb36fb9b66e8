// Counting calls, of which some are to fail.
ghost use Rattle.std.specs.Prelude.{◌≡◌, ◌==◌};
ghost use Rattle.std.specs.List.{list_any};
ghost use Rattle.btr_rack.specs.Rack.{next_count};

/// Counts a call, and says whether its number is among those that are to fail.
pub(crate) fn strikes(count: &mut u64, failing: &[u64]) -> bool
    ensures counted { count.new ≡ next_count count.old }
    ensures listed { result ≡ list_any (λ n. n == next_count count.old) failing.now }
{
    *count = count.saturating_add(1);
    let call = *count;
    failing.iter().any(|n| *n == call)
}
