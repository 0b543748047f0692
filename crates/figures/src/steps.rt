//! The figures of the whole step: the limit of the pose step, an example of each row
//! (docs/SPECIFICATION.md, "Refusals"), and any two rows that follow each other met at once, where
//! the earlier one is given.

ghost use Rattle.std.specs.Prelude.{◌≤◌};

use linearization::views::RelativePose;
use optimizer::{StepResult, pose_step};
use problem::correspondences::{Problem, Rig};
use program_io::show;
use projection::PinholeCamera;
use refusal::Refusal;
use std::io;

// What is varied of five points at depth 1, seen without error by two cameras at a distance of 1.
// `x` and `depth` are those of point 0, `seen` is x of point 3 in view 2, and the inverse standard
// deviation is that of point 2.
#[derive(Clone, Copy)]
struct Sample {
    x: f64,
    depth: f64,
    seen: f64,
    inverse_standard_deviation: f64,
    focal: f64,
    translation_basis: f64,
    baseline: f64,
    damping: f64,
}

/// Prints the figures of the limit, then those of the whole step.
pub fn print(rt: &impl Print) -> io::Result<()> {
    print_limited(rt, "pose step (1, 0, 0, 0, 0) limited", 1.0)?;
    print_limited(rt, "pose step (0.5, 0, 0, 0, 0) limited", 0.5)?;
    print_step(rt, "step of a sound problem", valid_sample(), 5, 10)?;
    print_lengths(rt)?;
    print_values(rt)?;
    print_views(rt)?;
    print_equations(rt)
}

// A line: the limited pose step of (x, 0, 0, 0, 0)
fn print_limited(rt: &impl Print, name: &str, x: f64) -> io::Result<()> {
    let step = pose_step::limit_pose_step([x, 0.0, 0.0, 0.0, 0.0]);
    print!(rt; "{name}")?;
    show::print_patterns(rt, &step)
}

// Rows 1 and 2
fn print_lengths(rt: &impl Print) -> io::Result<()> {
    print_step(rt, "step, 9 numbers in view 1", valid_sample(), 5, 9)?;
    print_step_of_many(rt, "step, rows 1 and 2", 131071, 1.0)?;
    print_step_of_many(rt, "step, 65,536 points", 131072, 1.0)?;
    print_step_of_many(rt, "step, rows 2 and 3", 131072, -1.0)
}

// Rows 3 to 6
fn print_values(rt: &impl Print) -> io::Result<()> {
    let mut p = valid_sample();
    p.damping = -1.0;
    print_step(rt, "step, damping -1", p, 5, 10)?;
    p.inverse_standard_deviation = 0.0;
    print_step(rt, "step, rows 3 and 4", p, 5, 10)?;
    p.damping = 1.0;
    print_step(
        rt,
        "step, inverse standard deviation 0 at index 2",
        p,
        5,
        10,
    )?;
    p.baseline = numerics::RELATIVE_TOLERANCE;
    print_step(rt, "step, rows 4 and 5", p, 5, 10)?;
    p.inverse_standard_deviation = 1.0;
    print_step(rt, "step, baseline 2^-46", p, 5, 10)?;
    p.x = f64::NAN;
    print_step(rt, "step, rows 5 and 6", p, 5, 10)?;
    p.baseline = 1.0;
    print_step(rt, "step, NaN at index 0", p, 5, 10)?;
    print_step(rt, "step, rows 6 and 7", p, 4, 8)
}

// Rows 7 to 9
fn print_views(rt: &impl Print) -> io::Result<()> {
    let mut p = valid_sample();
    print_step(rt, "step, 4 points", p, 4, 8)?;
    p.seen = numerics::from_bits(0x7FF0_0000_0000_0000);
    print_step(rt, "step, rows 7 and 8", p, 4, 8)?;
    print_step(rt, "step, infinity in view 2 at index 3", p, 5, 10)?;
    p.depth = 0.0;
    print_step(rt, "step, rows 8 and 9", p, 5, 10)?;
    p.seen = 1.0;
    print_step(rt, "step, point (0, 0, 0)", p, 5, 10)?;
    p.focal = 0.0;
    print_step(rt, "step, rows 9 and 10", p, 5, 10)
}

// Rows 10 and 11
fn print_equations(rt: &impl Print) -> io::Result<()> {
    let mut p = valid_sample();
    p.focal = 0.0;
    print_step(rt, "step, blocks of zeros", p, 5, 10)?;
    p.translation_basis = 0.0;
    p.damping = 0.0;
    print_step(rt, "step, rows 10 and 11", p, 5, 10)?;
    p.focal = 1.0;
    print_step(rt, "step, basis of zeros at damping 0", p, 5, 10)
}

// What nothing refuses
fn valid_sample() -> Sample {
    Sample {
        x: 0.0,
        depth: 1.0,
        seen: 1.0,
        inverse_standard_deviation: 1.0,
        focal: 1.0,
        translation_basis: 1.0,
        baseline: 1.0,
        damping: 1.0,
    }
}

// Two cameras of the sample's focal length, the second at x = 1
fn rig(p: Sample) -> Rig {
    let camera = PinholeCamera {
        fx: p.focal,
        fy: p.focal,
        cx: 0.0,
        cy: 0.0,
        skew: 0.0,
    };
    let pose = RelativePose {
        rotation: [1.0, 0.0, 0.0, 0.0, 1.0, 0.0, 0.0, 0.0, 1.0],
        translation: [1.0, 0.0, 0.0],
        translation_basis: [0.0, p.translation_basis, 0.0, 0.0, 0.0, p.translation_basis],
        baseline: p.baseline,
    };
    Rig {
        camera1: camera,
        camera2: camera,
        pose,
    }
}

// The line of the step of the first n points, with so many numbers of view 1
fn print_step(rt: &impl Print, name: &str, p: Sample, n: usize, in_view1: usize) -> io::Result<()>
    requires { (n ≤ 5) × (in_view1 ≤ 10) }
{
    let points = [
        p.x, 0.0, p.depth, 1.0, 0.0, 1.0, -1.0, 0.0, 1.0, 0.0, 1.0, 1.0, 0.0, -1.0, 1.0,
    ];
    let view1 = [0.0, 0.0, 1.0, 0.0, -1.0, 0.0, 0.0, 1.0, 0.0, -1.0];
    let view2 = [1.0, 0.0, 2.0, 0.0, 0.0, 0.0, p.seen, 1.0, 1.0, -1.0];
    let inverse_standard_deviations = [1.0, 1.0, p.inverse_standard_deviation, 1.0, 1.0];
    let mut point_steps = [0.0; 15];
    let problem = Problem {
        points: &points[0..3 * n],
        view1: &view1[0..in_view1],
        view2: &view2[0..2 * n],
        inverse_standard_deviations: &inverse_standard_deviations[0..n],
        rig: rig(p),
        damping: p.damping,
    };
    print_outcome(
        rt,
        name,
        optimizer::step(&problem, &mut point_steps[0..3 * n]),
    )
}

// The line of the step of 65,536 points, with so many numbers of view 1
fn print_step_of_many(rt: &impl Print, name: &str, in_view1: usize, damping: f64) -> io::Result<()>
    requires { in_view1 ≤ 196608 }
{
    let zeros = [0.0; 196608];
    let mut point_steps = [0.0; 196608];
    let problem = Problem {
        points: &zeros,
        view1: &zeros[0..in_view1],
        view2: &zeros[0..131072],
        inverse_standard_deviations: &zeros[0..65536],
        rig: rig(valid_sample()),
        damping,
    };
    print_outcome(rt, name, optimizer::step(&problem, &mut point_steps))
}

// A line: cost and squared residual, or the refusal
fn print_outcome(
    rt: &impl Print,
    name: &str,
    outcome: Result<StepResult, Refusal>,
) -> io::Result<()> {
    print!(rt; "{name}:")?;
    match outcome {
        Ok(step) => show::print_patterns(rt, &[step.cost, step.squared_residual]),
        Err(refusal) => println!(rt; " {refusal}"),
    }
}
