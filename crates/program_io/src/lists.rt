//! Printing the list of a run record.

use run_list::record;
use std::io;

/// Prints the list of a run record, or the one line of a record that is refused, on standard
/// output (docs/SPECIFICATION.md, "List").
pub fn print(rt: &impl Print, record: &[u8]) -> io::Result<()> {
    let mut out = [0; record::MAX_LIST];
    // No list is longer than `MAX_LIST`.
    let length = record::write_list(record, &mut out).unwrap();
    rt.write_all(&out[..length])
}
