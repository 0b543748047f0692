//! The list of a run record (`list`), and the greatest lengths of both.

mod list;

pub use list::{MAX_LIST, TooSmall, write_list};
pub use run_record::run::MAX_RECORD;
