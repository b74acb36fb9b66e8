// Laws of candidates, for the proofs of the layers above. The functions do nothing.
ghost use Rattle.btr_read.specs.Values.{ValueIsTheOne, ValueByRanges};

/// The value of a candidate by parities is the one slice that solves the equations of the parities, where the parts that it
/// reads are whole.
pub fn value_is_the_one()
    ensures { ValueIsTheOne }
{}

/// The value of a candidate hangs on the bytes of its ranges alone.
pub fn value_by_ranges()
    ensures { ValueByRanges }
{}
