use crate::Kind;

/// One thing that is wrong with a filesystem. Findings are ordered by kind, and then by their numbers.
#[derive(Clone, Copy, Debug, PartialEq, Eq, PartialOrd, Ord)]
pub struct Finding {
    /// Which rule is broken.
    pub kind: Kind,
    /// What breaks it, as the kind says; the numbers that it has no use for are 0.
    pub n: [u64; 7],
}

impl Finding {
    ghost use Rattle.std.specs.Prelude.{◌≡◌, ◌≤◌};
    ghost use Rattle.btr_findings.specs.Findings.{found};

    /// A finding of a kind with these numbers, which are at most seven, in the order of the kind's line (docs/FORMAT.md, "Findings"); those behind them
    /// are 0.
    pub fn new<const N: usize>(kind: Kind, numbers: [u64; N]) -> Finding
        requires { N ≤ 7 }
        ensures { result ≡ found kind numbers.entry }
    {
        let mut n = [0; 7];
        n[..N].copy_from_slice(&numbers);
        Finding { kind, n }
    }
}
