use btr_files::Counts;

/// What was restored, and how much was missing.
#[derive(Clone, Copy, Debug, PartialEq, Eq)]
pub struct Salvaged {
    /// What was restored, and what was left out by the rules.
    pub counts: Counts,
    /// How many entries and how many parts of directories can't be had.
    pub broken: u64,
}
