ghost use Rattle.std.specs.Prelude.{◌≡◌};
ghost use Rattle.btr_findings.specs.Findings.{shown_sum};

/// A sum as it is printed: at most 2^64 - 1.
pub fn shown(sum: u128) -> u64
    ensures { result ≡ shown_sum sum }
{
    match u64::try_from(sum) {
        Ok(sum) => sum,
        Err(_) => u64::MAX,
    }
}
