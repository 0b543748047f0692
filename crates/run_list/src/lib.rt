//! The list of a run record: text that tells for each point how its block factors, then the sums of
//! the run and whether it can be used; or one line that tells why the record is refused.
#![tactic(auto)]

mod lines;
pub mod record;
mod theorems;

pub use theorems::{
    list_is_decided_by_a_prefix, no_list_is_longer, no_row_before_3, sums_are_never_nan,
};
