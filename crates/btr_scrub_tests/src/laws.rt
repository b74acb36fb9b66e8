use btr_scrub::{
    bad_block_is_wrong, block_of_element, differing_parity_is_wrong, elements_apart,
    elements_are_slices, few_are_few_at, few_bytes, first_turn_keeps_blocks, listed_counts,
    listed_writes, part_stands, right_stays, row_gives_blocks, row_outlives_writes, row_survives,
    row_writes_are_wrong, second_turn_keeps_blocks, some_candidate_is_right, works_keep_the_rest,
    writes_keep_the_rest,
};
use std::test::Fail;

#[test]
fn laws_do_nothing(_: HostRuntime) -> Result<(), Fail> {
    bad_block_is_wrong();
    block_of_element();
    differing_parity_is_wrong();
    elements_apart();
    elements_are_slices();
    few_are_few_at();
    few_bytes();
    first_turn_keeps_blocks();
    listed_counts();
    listed_writes();
    part_stands();
    right_stays();
    row_gives_blocks();
    row_outlives_writes();
    row_survives();
    row_writes_are_wrong();
    second_turn_keeps_blocks();
    some_candidate_is_right();
    works_keep_the_rest();
    writes_keep_the_rest();
    Ok(())
}
