//! The parity of RAID5 and RAID6: P, the sum of the data slices of a full stripe, and Q, the sum of
//! `2^i` times slice `i`, in the field of 256 elements that Linux has for it, the polynomials over
//! {0, 1} modulo x^8 + x^4 + x^3 + x^2 + 1.
//!
//! The layers above are promised that sums and products are exact, at every length and every index,
//! and that a rebuilt slice is the one solution of its equations. No call refuses or allocates. The
//! field is defined in `specs/Field.antt`, P and Q in `specs/Slices.antt`, what a lost slice solves in
//! `specs/Solutions.antt`, and what each way to a slice reads in `specs/Ways.antt`. Their laws, in
//! `specs/Laws.antt` and `specs/Ways.antt`, are the contracts of functions that do nothing.
#![tactic(auto)]

mod field;
mod fold;
mod laws;
mod multiples;
mod rebuild;
mod tables;

pub use field::{LAST_INDEX, times};
pub use fold::{double_and_add, fold_p, fold_q};
pub use laws::{
    folding_onto_p, folding_onto_q, lost_by_both, lost_by_p, lost_by_q, pair_is_one,
    parity_by_folding, parity_of_ranges, powers_differ, product_is_remainder, products_keep_sums,
    quotient_is_one, right_elements_give_right_slice, some_way_gives_right_slice,
    some_way_reads_none_wrong, sums_of_slices,
};
pub use rebuild::{rebuild_pq, rebuild_q};

#[cfg(test)]
mod tests;
