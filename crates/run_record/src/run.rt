//! The run that a record holds: docs/SPECIFICATION.md, "Run record".

ghost use Rattle.std.specs.Prelude.{◌≡◌, ◌<◌, ◌≤◌, ◌+◌, ◌++◌, [], take, Ok, OnOk, length};
ghost use Rattle.std.specs.Result.{result_and};
ghost use Rattle.problem.specs.Problem as Problems;
ghost use Rattle.run_record.specs.Fields as Fields;
ghost use Rattle.run_record.specs.Form as Form;
ghost use Rattle.run_record.specs.Places as Places;
ghost use Rattle.run_record.specs.Run as Runs;

use crate::fields::Field;
use crate::payload;
use crate::reader::Reader;
use linearization::views::Correspondence;
use problem::correspondences::{Problem, Rig};
use refusal::Refusal;
use std::marker::Model;

/// The most bytes of a record, which 512 points have; row 14 refuses more.
pub const MAX_RECORD: usize = 34559;

// The most points of a record
const MAX_POINTS: usize = 512;

/// A run of at most 512 points, held by value. In clauses it is the record `Problem`.
#[derive(Drop)]
pub struct Run {
    points: [f64; 3 * MAX_POINTS],
    view1: [f64; 2 * MAX_POINTS],
    view2: [f64; 2 * MAX_POINTS],
    inverse_standard_deviations: [f64; MAX_POINTS],
    count: usize,
    rig: Rig,
    damping: f64,
}

impl Model for Run {
    ghost use Rattle.std.specs.Prelude.{take, ◌*◌, ◌≤◌};
    ghost use Rattle.problem.specs.Problem.{Problem, problem};

    ghost Value = { Problem };

    ghost view = { λ a. problem (take (3 * a.count) a.points) (take (2 * a.count) a.view1)
        (take (2 * a.count) a.view2) (take a.count a.inverse_standard_deviations) a.rig a.damping };

    ghost invariant = { λ a. a.count ≤ 512 };
}

impl Run {
    // A run with no point yet
    fn new(rig: Rig, damping: f64) -> Self
        ensures { result ≡ Problems.problem [] [] [] [] rig damping }
    {
        Run {
            points: [0.0; 3 * MAX_POINTS],
            view1: [0.0; 2 * MAX_POINTS],
            view2: [0.0; 2 * MAX_POINTS],
            inverse_standard_deviations: [0.0; MAX_POINTS],
            count: 0,
            rig,
            damping,
        }
    }

    // Puts the numbers of one more point behind those of the others.
    #[tactic(auto, unfolding(crate::specs::Run::with_point))]
    fn push(&mut self, correspondence: Correspondence)
        requires { length self.old.inverse_standard_deviations < 512 }
        ensures { self.new ≡ Runs.with_point self.old correspondence }
    {
        let n = self.count;
        put(&mut self.points, 3 * n, correspondence.point);
        put(&mut self.view1, 2 * n, correspondence.view1);
        put(&mut self.view2, 2 * n, correspondence.view2);
        put(
            &mut self.inverse_standard_deviations,
            n,
            [correspondence.inverse_standard_deviation],
        );
        self.count = n + 1;
    }

    /// The run, lent to the optimizer as a two-view problem.
    pub fn problem<'a>(&'a self) -> Problem<'a>
        ensures { result ≡ self.now }
    {
        let n = self.count;
        Problem {
            points: &self.points[..3 * n],
            view1: &self.view1[..2 * n],
            view2: &self.view2[..2 * n],
            inverse_standard_deviations: &self.inverse_standard_deviations[..n],
            rig: self.rig,
            damping: self.damping,
        }
    }
}

// Puts numbers into a list from a place on.
fn put<const N: usize>(list: &mut [f64], at: usize, numbers: [f64; N])
    requires { at + N ≤ length list.old }
    ensures { take (at + N) list.new ≡ take at list.old ++ numbers.entry }
{
    list[at..at + N].copy_from_slice(&numbers);
}

/// The run that a record holds. The record is read once, from its first byte to its last: each
/// field is tested as it is read. Refuses: row 14, a record longer than `MAX_RECORD`; then row 15,
/// a broken field, with the byte where the first one begins as index.
#[tactic(auto, unfolding(crate::specs::Form::check_form))]
pub fn read(record: &[u8]) -> Result<Run, Refusal>
    ensures { result ≡ result_and (Form.check_form «record».now) (Ok (Runs.run «record».now)) }
{
    if record.len() > MAX_RECORD {
        return Err(Refusal::RecordTooLong);
    }
    let mut reader = Reader {
        bytes: record,
        at: 0,
    };
    let mut run = read_header(&mut reader)?;
    read_points(&mut reader, &mut run)?;
    Ok(run)
}

// The fields before the points: a run with no point yet. Refuses: row 15.
fn read_header(reader: &mut Reader) -> Result<Run, Refusal>
    requires { reader.old.at ≡ 0 }
    ensures header { let r = reader.old.bytes.now in
        result ≡ result_and (Form.check_header r) (Ok (Runs.first_points r 0)) }
    ensures behind { OnOk result (Places.MovesTo reader.old reader.new Fields.points_at) }
{
    let camera1 = payload::camera(reader.next_field(Field::Camera1)?);
    let camera2 = payload::camera(reader.next_field(Field::Camera2)?);
    let pose = reader.next_field(Field::Pose)?;
    let translation_basis = reader.next_field(Field::Basis)?;
    let damping = reader.next_field(Field::Damping)?;
    let rig = Rig {
        camera1,
        camera2,
        pose: payload::pose(pose, translation_basis),
    };
    Ok(Run::new(rig, payload::number_at(damping, 0)))
}

// Reads the fields of the points, to the record's end. Refuses: row 15.
#[tactic(auto, using(crate::proofs::Points::passes))]
fn read_points(reader: &mut Reader, run: &mut Run) -> Result<(), Refusal>
    requires place { reader.old.at ≡ Fields.points_at }
    requires none { run.old ≡ Runs.first_points reader.old.bytes.now 0 }
    ensures checked { result ≡ Form.check_points reader.old.bytes.now }
    ensures all { OnOk result (run.new ≡ Runs.run reader.old.bytes.now) }
{
    while !reader.is_at_end() {
        run.push(payload::correspondence(reader.next_field(Field::Point)?));
    }
    Ok(())
}
