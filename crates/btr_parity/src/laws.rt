// The laws of the field and of parity, for the proofs of the layers above. The functions do nothing.
ghost use Rattle.btr_parity.specs.Laws.{ProductIsRemainder, ProductsKeepSums, PowersDiffer, QuotientIsOne, PairIsOne};
ghost use Rattle.btr_parity.specs.Laws.{SumsOfSlices, ParityByFolding, FoldingOntoP, FoldingOntoQ, ParityOfRanges, LostByP, LostByQ, LostByBoth};
ghost use Rattle.btr_parity.specs.Ways.{SomeWayReadsNoneWrong, RightElementsGiveRightSlice, SomeWayGivesRightSlice};

/// A product of the field is the product of the polynomials modulo the modulus, and nothing else is.
pub fn product_is_remainder()
    ensures { ProductIsRemainder }
{}

/// Multiplication by a power of 2 distributes over sums.
pub fn products_keep_sums()
    ensures { ProductsKeepSums }
{}

/// The powers of 2 up to `2^62` differ, and none is 0.
pub fn powers_differ()
    ensures { PowersDiffer }
{}

/// `2^i * X = c` has one solution.
pub fn quotient_is_one()
    ensures { QuotientIsOne }
{}

/// The two equations of a pair of lost slices have one solution.
pub fn pair_is_one()
    ensures { PairIsOne }
{}

/// Slices may be added in any order, and one that is added twice is taken away.
pub fn sums_of_slices()
    ensures { SumsOfSlices }
{}

/// `fold_p` and `fold_q`, slice after slice, make P and Q, and `double_and_add` makes Q.
pub fn parity_by_folding()
    ensures { ParityByFolding }
{}

/// The steps of a loop that adds slices to P by `fold_p`, or leaves some out.
pub fn folding_onto_p()
    ensures { FoldingOntoP }
{}

/// The steps of a loop that adds slices to Q by `fold_q`, or leaves some out.
pub fn folding_onto_q()
    ensures { FoldingOntoQ }
{}

/// The parity of some bytes of each slice is those bytes of the parity.
pub fn parity_of_ranges()
    ensures { ParityOfRanges }
{}

/// A lost slice is what is left of P when the others are folded into it.
pub fn lost_by_p()
    ensures { LostByP }
{}

/// `rebuild_q` makes a lost slice of what is left of Q when the others are folded into it.
pub fn lost_by_q()
    ensures { LostByQ }
{}

/// `rebuild_pq` makes one of two lost slices of what is left of P and Q.
pub fn lost_by_both()
    ensures { LostByBoth }
{}

/// Where at most as many elements of a full stripe are wrong as there is parity, some way to come by
/// each slice reads none of them.
pub fn some_way_reads_none_wrong()
    ensures { SomeWayReadsNoneWrong }
{}

/// A way that reads right elements gives the right slice.
pub fn right_elements_give_right_slice()
    ensures { RightElementsGiveRightSlice }
{}

/// Where at most as many elements of a full stripe are wrong as there is parity, some way gives each
/// slice as it should be.
pub fn some_way_gives_right_slice()
    ensures { SomeWayGivesRightSlice }
{}
