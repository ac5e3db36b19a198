//! The theory of trace closures and derivatives of regular expressions.
//!
//! Each contract is a theorem of `specs/`, and the functions themselves do nothing.
//! `docs/THEORY.md` explains the definitions and the theorems.
#![tactic(auto)]

mod alphabet;
mod decision;
mod derivatives;
mod examples;
mod exchanges;
mod normal;
mod order;
mod swaps;

pub use alphabet::{closure_below_holds, events_stay_below_holds, words_below_holds};
pub use decision::{
    after_append_holds, empty_stays_empty_holds, members_count_holds, nonempty_prefix_holds,
    nullable_closure_holds, nullable_decides_holds,
};
pub use derivatives::{derivatives_closure_holds, derivatives_normal_holds, keep_words_holds};
pub use examples::example_table_holds;
pub use exchanges::{closure_never_holds, exchanges_reverse_holds};
pub use normal::{
    equal_decides_holds, normal_built_holds, normal_has_word_holds, normal_plain_holds,
    normal_words_holds,
};
pub use order::{
    order_by_parts_holds, order_equal_holds, order_total_holds, size_counts_symbols_holds,
};
pub use swaps::{closure_by_orders_holds, swaps_are_exchanges_holds, swaps_reach_order_holds};
