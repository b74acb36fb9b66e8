//! Laws of candidates, places and parity (`docs/FORMAT.md`: "Chunks", "Parity", "Reading a block", "Full stripes"). The functions do nothing.
ghost use Rattle.btr_scrub.specs.Survival.{BadBlockIsWrong, DifferingParityIsWrong};
ghost use Rattle.btr_scrub.specs.Survival.{ElementsAreSlices, FewAreFewAt, RowSurvives};
ghost use Rattle.btr_scrub.specs.Places.{ElementsApart};
ghost use Rattle.btr_scrub.specs.Listed.{FewBytes};
ghost use Rattle.btr_scrub.specs.Staying.{RightStays, RowOutlivesWrites, RowWritesAreWrong};
ghost use Rattle.btr_scrub.specs.Keeping.{FirstTurnKeepsBlocks, SecondTurnKeepsBlocks};
ghost use Rattle.btr_scrub.specs.WrittenRanges.{WritesKeepTheRest};
ghost use Rattle.btr_scrub.specs.Whole.{ListedCounts, ListedWrites, WorksKeepTheRest};
ghost use Rattle.btr_scrub.specs.Sifting.{KeptCounts, KeptWrites};
ghost use Rattle.btr_scrub.specs.BlocksInRows.{SomeCandidateIsRight, BlockOfElement, PartStands};
ghost use Rattle.btr_scrub.specs.BlocksInRows.{RowGivesBlocks};

/// Where at most as many elements of a full stripe are wrong as there is parity, some candidate of each block reads none of
/// them, and gives the bytes as they should be (`docs/FORMAT.md`, "Full stripes").
pub fn some_candidate_is_right()
    ensures { SomeCandidateIsRight }
{}

/// The bytes that a block's candidates read of a part are those of the part's element, in the block's place (`docs/FORMAT.md`, "Full stripes").
pub fn block_of_element()
    ensures { BlockOfElement }
{}

/// A part of a block stands where the part's element does (`docs/FORMAT.md`, "Full stripes").
pub fn part_stands()
    ensures { PartStands }
{}

/// Where a full stripe is right, where a block lies, but for as many elements as there is parity,
/// some candidate of the block reads none of them, and gives the block's bytes as they should be
/// (`docs/FORMAT.md`, "Full stripes").
pub fn row_gives_blocks()
    ensures { RowGivesBlocks }
{}

/// Writes change nothing but their ranges.
pub fn writes_keep_the_rest()
    ensures { WritesKeepTheRest }
{}

/// An element that stands has 65536 bytes (`docs/FORMAT.md`, "Full stripes").
pub fn elements_are_slices()
    ensures { ElementsAreSlices }
{}

/// Where the bytes of a full stripe that aren't wrong stay as they are, each checked block in it
/// that is right at its own place, or lies where no more elements are wrong than there is parity,
/// has a candidate with its committed bytes (`docs/FORMAT.md`, "Full stripes").
pub fn row_survives()
    ensures { RowSurvives }
{}

/// Where no more elements of a full stripe are wrong than there is parity, no more are where a
/// block lies (`docs/FORMAT.md`, "Full stripes").
pub fn few_are_few_at()
    ensures { FewAreFewAt }
{}

/// Each byte of an image is of one element of one full stripe at most (`docs/FORMAT.md`, "Chunks").
pub fn elements_apart()
    ensures { ElementsApart }
{}

/// A bad block, or a sector without a checksum that is stale, lies in an element that is wrong
/// (`docs/FORMAT.md`, "Full stripes").
pub fn bad_block_is_wrong()
    ensures { BadBlockIsWrong }
{}

/// A parity that differs from that of the new data in a decided column isn't right there
/// (`docs/FORMAT.md`, "Full stripes").
pub fn differing_parity_is_wrong()
    ensures { DifferingParityIsWrong }
{}

/// A list of blocks takes at most 48 bytes for each sector with a checksum, 16 for each without, and 32 for each tree block
/// (`docs/FORMAT.md`, "Checked blocks").
pub fn few_bytes()
    ensures { FewBytes }
{}

/// Where each byte of some ranges is a wrong one of a full stripe or lies in a chunk with copies,
/// all other bytes of full stripes stay, whatever is written in the ranges (`docs/FORMAT.md`, "Full
/// stripes").
pub fn right_stays()
    ensures { RightStays }
{}

/// So each checked block of a full stripe that is right at its own place, or lies where no more
/// elements are wrong than there is parity, has a candidate with its committed bytes, whatever is
/// written in the ranges (`docs/FORMAT.md`, "Full stripes").
pub fn row_outlives_writes()
    ensures { RowOutlivesWrites }
{}

/// Each byte that the writes of a full stripe change is a wrong one of it (`docs/FORMAT.md`, "Full
/// stripes").
pub fn row_writes_are_wrong()
    ensures { RowWritesAreWrong }
{}

/// The writes for a list of all checked blocks are those that mend the filesystem (`docs/FORMAT.md`, "Checked blocks").
pub fn listed_writes()
    ensures { ListedWrites }
{}

/// Whatever failed as the blocks of a list were mended, all that lies outside the ranges of their writes is as before.
pub fn works_keep_the_rest()
    ensures { WorksKeepTheRest }
{}

/// The counts for a list of all checked blocks are the tally of the repair, but that each stands still at its type's end
/// (`docs/FORMAT.md`, "The line of a scrub").
pub fn listed_counts()
    ensures { ListedCounts }
{}

/// Where the blocks of a full stripe are being written, and none of that is known to be stored, each block that passes at its own
/// place, or has a way that reads nothing of what is written, can be had, whatever stands in the ranges that wait for a sync
/// (`docs/FORMAT.md`, "Full stripes").
pub fn first_turn_keeps_blocks()
    ensures { FirstTurnKeepsBlocks }
{}

/// Where they are stored, and the parities are being written, each block that could be had stands at its own place, whatever
/// stands in the ranges that wait for a sync (`docs/FORMAT.md`, "Full stripes").
pub fn second_turn_keeps_blocks()
    ensures { SecondTurnKeepsBlocks }
{}

/// The writes for those blocks of a list for which something may have to be written are the writes
/// for all of them.
pub fn kept_writes()
    ensures { KeptWrites }
{}

/// The counts for them, begun with how many of the other blocks are checked, are the counts for all
/// of them.
pub fn kept_counts()
    ensures { KeptCounts }
{}
