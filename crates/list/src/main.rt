//! Reads a run record from standard input and prints its list (docs/SPECIFICATION.md, "List"). A
//! read that fails ends the program with its error, and nothing is printed.
#![tactic(auto)]

use program_io::{lists, stored_file};
use run_list::record;
use std::io;

fn main(rt: HostRuntime) -> io::Result<()> {
    // One byte more than the longest record: more cannot change the list
    // (`run_list::list_is_decided_by_a_prefix`).
    let mut bytes = [0; record::MAX_RECORD + 1];
    let n = stored_file::read_full(&mut rt.reader(), &mut bytes)?;
    lists::print(&rt, &bytes[..n])
}
