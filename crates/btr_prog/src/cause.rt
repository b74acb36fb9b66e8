/// What a call tells of a want that could not be read.
pub trait Cause<W> {
    // When a want is the one.
    ghost is: { Self → W → Type 0 };
}

/// The same of a want of one of two parts.
pub trait StagedCause<T, W> {
    ghost use Rattle.btr_prog.specs.Stages.{Staged};

    // When a want is the one.
    ghost is: { Self → Staged T W → Type 0 };
}
