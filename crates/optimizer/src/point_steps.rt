// SPDX-FileCopyrightText: 2026 Pierre Moulon and OpenMVG Rust contributors
// SPDX-License-Identifier: MIT OR Apache-2.0

//! How all points move with a step of the pose: their steps in lent memory, and the sums over them,
//! as `candidate_cost` of kernel/two_view/optimizer.rs has them.

ghost use Rattle.std.specs.Prelude.{◌≡◌, ◌*◌, IsTrue, length};
ghost use Rattle.schur.specs.Reduced as Reduced;
ghost use Rattle.problem.specs.Problem as Problems;
ghost use Rattle.optimizer.specs.Assembly as Assembly;
ghost use Rattle.optimizer.specs.PointSteps as Steps;

use numerics::vectors;
use problem::checks::CheckedProblem;
use problem::correspondences::ProblemPoint;
use schur::point_step;

// Over all points, the sum of the squared lengths of their steps and that of their damping norms
#[derive(Clone, Copy)]
pub(crate) struct StepSums {
    pub squared: f64,
    pub damping_norm: f64,
}

// Writes each point's step into the memory for the point steps, three numbers a point.
#[tactic(auto, using(crate::proofs::Passes::passes))]
pub(crate) fn write_steps(
    problem: &CheckedProblem,
    pose_step: [f64; 5],
    point_steps: &mut [f64],
) -> StepSums
    requires valid { IsTrue (Reduced.is_valid (Assembly.reduced_system problem.now)) }
    requires length { length point_steps.old ≡ 3 * Problems.count problem.now }
    ensures sums { let p = problem.now in
        result ≡ Steps.sums_to p pose_step (Problems.count p) }
    ensures steps { let p = problem.now in
        point_steps.new ≡ Steps.steps_to p pose_step (Problems.count p) }
{
    let fitting = problem.fitting();
    let damping = problem.damping();
    let mut squared = 0.0;
    let mut damping_norm = 0.0;
    for index in 0..fitting.count() {
        let point = ProblemPoint { fitting, index };
        let terms = linearization::terms_of(fitting.rig(), point.correspondence());
        let Ok(moved) = point_step::damped_step(terms, damping, pose_step) else {
            unreachable!()
        };
        let at = 3 * (index as usize);
        point_steps[at..at + 3].copy_from_slice(&moved.step);
        squared = squared + squared_norm(moved.step);
        damping_norm = damping_norm + moved.damping_norm;
    }
    StepSums {
        squared,
        damping_norm,
    }
}

// x₀² + x₁² + x₂², a sum from −0
fn squared_norm(x: [f64; 3]) -> f64
    ensures { result ≡ Steps.squared_norm x }
{
    vectors::dot(x, x)
}
