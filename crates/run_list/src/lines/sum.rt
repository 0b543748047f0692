//! The line of a list's sums and of its verdict: docs/SPECIFICATION.md, "List".

ghost use Rattle.std.specs.Prelude.{◌≡◌};
ghost use Rattle.run_list.specs.SumLine as SumLine;
ghost use Rattle.text.specs.Text as Text;

use schur::reduced_system::ReducedSystem;
use text::Writer;

// sum COST SQUARED WEAK VALIDITY VERDICT: the bits of cost and squared residual, the weak count
pub(crate) fn put_sum(writer: &mut Writer, system: ReducedSystem)
    ensures { Text.AppendsText (SumLine.sum_line system) writer.old writer.new }
{
    let valid = system.is_valid();
    let weak = system.weak_point_count;
    writer.put(b"sum");
    crate::lines::put_bits(writer, system.cost, b"");
    crate::lines::put_bits(writer, system.squared_residual, b" ");
    writer.put_decimal_then(
        weak as u32,
        &[b' ', validity(valid), b' ', verdict(valid, weak), b'\n'],
    );
}

// `y` or `n`: the system is valid, or not
fn validity(valid: bool) -> u8
    ensures { result ≡ SumLine.validity valid }
{
    if valid { b'y' } else { b'n' }
}

// `u` or `x`: the run can be used, or not
fn verdict(valid: bool, weak: u16) -> u8
    ensures { result ≡ SumLine.verdict valid weak }
{
    if valid && weak == 0 { b'u' } else { b'x' }
}
