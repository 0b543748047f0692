//! What the programs share: reading a file or the input whole, printing bit patterns, and printing
//! the list of a run record.
#![tactic(auto)]

pub mod lists;
pub mod show;
pub mod stored_file;
