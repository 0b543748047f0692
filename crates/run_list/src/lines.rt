//! The lines of a list, one function a line: words and numbers with single spaces between, and a
//! line feed at the end. docs/SPECIFICATION.md, "List".

mod sum;

ghost use Rattle.run_list.specs.Lines as Lines;
ghost use Rattle.text.specs.Text as Text;

use refusal::Refusal;
pub(crate) use sum::put_sum;
use text::{Writer, hex_digits};

// run N DAMPING: the number of points, the damping's bits
pub(crate) fn put_run(writer: &mut Writer, n: u32, damping: f64)
    ensures { Text.AppendsText (Lines.run_line n damping) writer.old writer.new }
{
    writer.put(b"run ");
    writer.put_decimal(n);
    put_bits(writer, damping, b"\n");
}

// A space, a number's bits in hexadecimal, and the text `after`
pub(crate) fn put_bits(writer: &mut Writer, x: f64, after: &[u8])
    ensures { Text.AppendsText (Lines.bits_then x after.now) writer.old writer.new }
{
    let digits = hex_digits::digits(numerics::to_bits(x));
    writer.put_three(b" ", &digits, after);
}

// p INDEX LETTER: the letter in ASCII
#[tactic(auto, using(text::proofs::Wrote::wrote_both), unfolding(crate::specs::Lines::point_line))]
pub(crate) fn put_point(writer: &mut Writer, i: u32, letter: u8)
    ensures { Text.AppendsText (Lines.point_line i letter) writer.old writer.new }
{
    writer.put(b"p ");
    writer.put_decimal_then(i, &[b' ', letter, b'\n']);
}

// refused NUMBER VIEW INDEX: the text of the refusal, and a line feed
pub(crate) fn put_refused(writer: &mut Writer, refusal: Refusal)
    ensures { Text.AppendsText (Lines.refused_line refusal) writer.old writer.new }
{
    let row = refusal.row();
    writer.put(b"refused ");
    writer.put_decimal_then(row.number, b" ");
    writer.put_decimal_then(row.view, b" ");
    writer.put_decimal_then(row.index, b"\n");
}
