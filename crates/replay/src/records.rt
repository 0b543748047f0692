//! The lists of stored run records.

use crate::files;
use program_io::{lists, stored_file};
use run_list::record;
use std::io;
use std::rt::Files;

// One byte more than any stored record has: the longest is one byte longer than a record may be.
const BUFFER: usize = record::MAX_RECORD + 2;

/// Prints each name of data/records.txt, and under it the list of the record in the file of that
/// name.
pub fn replay(rt: &(impl Files + Print), buffer: &mut [u8]) -> io::Result<()> {
    let mut bytes = [0; BUFFER];
    for name in files::text(rt, buffer, "records.txt")?.lines() {
        println!(rt; "{name}")?;
        let n = stored_file::read(rt, name, &mut bytes)?;
        lists::print(rt, &bytes[..n])?;
    }
    Ok(())
}
