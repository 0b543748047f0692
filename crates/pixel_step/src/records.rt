//! The list of a run record.

ghost use Rattle.pixel_step.specs.Interface as Interface;

use run_list::record;

/// The length of the list of a run record, in bytes. The list, or the one line of a record that is
/// refused, is written to the front of `out` if it fits there, and the bytes behind it stay; if it
/// does not fit, nothing is written. 4,057 bytes always suffice.
///
/// - `record`: the bytes of a record, of any length
/// - `out`: of any length
///
/// It has no refusal of its own. The list: `run_list::record::write_list`.
#[unsafe(no_mangle)]
pub extern "C" fn pixel_step_write_list(record: &[u8], out: &mut [u8]) -> u64
    ensures { Interface.HasListOutcome «record».now out.old result out.new }
{
    match record::write_list(record, out) {
        Ok(length) => length as u64,
        Err(too_small) => too_small.needed as u64,
    }
}
