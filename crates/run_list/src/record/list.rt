//! The list of a run record: docs/SPECIFICATION.md, "List". The record is read once, by
//! `run_record::run::read`; what is listed is the run that it gave.

ghost use Rattle.std.specs.Prelude.{◌≡◌};
ghost use Rattle.problem.specs.Checks as Checks;
ghost use Rattle.problem.specs.Letters as Letters;
ghost use Rattle.problem.specs.Problem as Problems;
ghost use Rattle.optimizer.specs.Assembly as Assembly;
ghost use Rattle.run_list.specs.Lists as Lists;
ghost use Rattle.text.specs.Text as Text;

use crate::lines;
use optimizer::assembly;
use point_block::point_damping::ValidDamping;
use problem::checks::CheckedProblem;
use problem::correspondences::{Problem, ProblemPoint};
use problem::letters;
use run_record::run;
use std::error::Error;
use std::fmt;
use text::Writer;

/// The most bytes of a list: a buffer of so many always suffices
/// (`run_list::no_list_is_longer`).
pub const MAX_LIST: usize = 4057;

/// A lent buffer has fewer bytes than the list.
#[derive(Clone, Copy, Debug, PartialEq, Eq)]
pub struct TooSmall {
    /// The bytes of the list
    pub needed: usize,
}

impl fmt::Display for TooSmall {
    fn fmt<W: fmt::Write>(&self, f: &mut fmt::Formatter<W>) -> fmt::Result {
        let needed = self.needed;
        write!(f, "the list needs {needed} bytes")
    }
}

impl Error for TooSmall {}

/// Writes the list of a record, of any length, to the front of `out`, and gives the list's length
/// in bytes; the bytes behind it stay. Refuses nothing: a record that row 14, row 15 or rows 3 to
/// 9 refuse, in this order, has a list of one line that says so. `TooSmall` where the list does
/// not fit; then nothing is written. The record is read once.
pub fn write_list(record: &[u8], out: &mut [u8]) -> Result<usize, TooSmall>
    ensures { Lists.WritesList «record».now out.old result out.new }
{
    let mut list = [0u8; MAX_LIST];
    let length = put_list(&mut list, record);
    if length > out.len() {
        return Err(TooSmall { needed: length });
    }
    text::put(out, 0, &list[..length]);
    Ok(length)
}

// Puts the list of any record, read once: rows 14 and 15 are tested as it is read.
#[tactic(auto, unfolding(text::specs::Text::AppendsText, crate::specs::Lists::list, crate::specs::Lists::check_record))]
fn put_list(out: &mut [u8], record: &[u8]) -> usize
    ensures { Text.PutsText (Lists.list «record».now) 0 out.old result out.new }
{
    let mut writer = Writer::new(out);
    match run::read(record) {
        Ok(run) => put_listed(&mut writer, &run.problem()),
        Err(refusal) => lines::put_refused(&mut writer, refusal),
    }
    writer.at
}

// Puts the list of a run: rows 3 to 9, then the lines.
fn put_listed(writer: &mut Writer, problem: &Problem)
    ensures { let p = problem.now in
        Text.AppendsText (Lists.lines_or_refusal p (Checks.check_problem p)) writer.old writer.new }
{
    match CheckedProblem::new(problem) {
        Ok(checked) => put_lines(writer, &checked),
        Err(refusal) => lines::put_refused(writer, refusal),
    }
}

// Puts the lines of a run that is not refused.
#[tactic(auto, using(text::proofs::Wrote::wrote_both), unfolding(crate::specs::Lists::lines_of))]
fn put_lines(writer: &mut Writer, problem: &CheckedProblem)
    ensures { Text.AppendsText (Lists.lines_of problem.now (Assembly.reduced_system problem.now))
        writer.old writer.new }
{
    let fitting = problem.fitting();
    lines::put_run(writer, fitting.count(), problem.damping().value());
    put_points(writer, problem);
    lines::put_sum(writer, assembly::reduced_system(problem));
}

// Puts a line for each point, with its index.
#[tactic(auto, using(crate::proofs::Runs::no_lines, crate::proofs::Runs::next_line))]
fn put_points(writer: &mut Writer, problem: &CheckedProblem)
    ensures { Text.AppendsText (Lists.point_lines problem.now (Problems.count problem.now))
        writer.old writer.new }
{
    let fitting = problem.fitting();
    let damping = problem.damping();
    for index in 0..fitting.count() {
        let point = ProblemPoint { fitting, index };
        lines::put_point(writer, index, letter_of(point, damping));
    }
}

// The letter of a point: how its block factors at a damping
fn letter_of(point: ProblemPoint, damping: ValidDamping) -> u8
    ensures { result ≡ Letters.letter_of
        (Assembly.block_at point.entry.fitting.now point.entry.index) damping }
{
    let block = linearization::block_of(point.fitting.rig(), point.correspondence());
    letters::letter_of(block, damping)
}
