use btr_run::Answer;

/// What came of a call of `run`.
#[derive(Drop)]
pub struct Told {
    pub answer: Answer,
    /// The exit status.
    pub code: u8,
    /// What stands in the output.
    pub text: Vec<u8>,
    /// The rows of the destination, a line each: the name, or `..` behind a directory, and behind a file's name a space and its bytes.
    pub rows: Vec<u8>,
    /// Whether a file stands there that isn't finished.
    pub has_part: bool,
}
