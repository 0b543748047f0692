// SPDX-FileCopyrightText: 2026 Pierre Moulon and OpenMVG Rust contributors
// SPDX-License-Identifier: MIT OR Apache-2.0

//! The figures that a whole step gives: kernel/two_view/optimizer.rs.

ghost use Rattle.std.specs.Prelude.{◌≡◌};
ghost use Rattle.problem.specs.Problem as Problems;
ghost use Rattle.optimizer.specs.Results as Results;

use crate::point_steps::StepSums;
use problem::checks::CheckedProblem;
use schur::reduced_system::ReducedSystem;

/// The limited step of the pose, and the figures of the system and of the point steps:
/// docs/SPECIFICATION.md, "Whole step"
#[derive(Clone, Copy)]
pub struct StepResult {
    /// Rotation (3, radians), then translation along the two basis vectors (2), limited in length
    pub pose_step: [f64; 5],
    /// Over all points, ½ · |weighted residuals|²
    pub cost: f64,
    /// Over all points, |residuals|² in pixels², unweighted
    pub squared_residual: f64,
    /// The largest entry of the gradient, each scaled by the root of its Hessian diagonal
    pub gradient_norm: f64,
    /// At damping zero: how many points have no factor, or one with a reciprocal condition number
    /// of at most 192ε. At other dampings 0.
    pub weak_point_count: u16,
    /// At damping zero the least reciprocal condition number of a point's block, 0 where one has no
    /// factor. At other dampings 1.
    pub minimum_point_rcond: f64,
    /// The root mean square of the lengths of the point steps, in parts of the baseline
    pub point_step_rms: f64,
    /// Over all points, the step's squared length in the norm of the damping diagonal
    pub point_damping_norm: f64,
    /// By how much the linear model says that the cost falls
    pub predicted_reduction: f64,
}

impl StepResult {
    // From a problem's damped system, its limited pose step, and the sums over its point steps
    #[tactic(auto, unfolding(crate::specs::Results::step_result))]
    pub(crate) fn of(
        problem: &CheckedProblem,
        system: &ReducedSystem,
        pose_step: [f64; 5],
        sums: StepSums,
    ) -> Self
        ensures { result ≡ Results.step_result system.now pose_step problem.now.damping
            (Problems.count problem.now) sums.squared sums.damping_norm }
    {
        let n = problem.fitting().count();
        let damping_norm = sums.damping_norm;
        Self {
            pose_step,
            cost: system.cost,
            squared_residual: system.squared_residual,
            gradient_norm: system.scaled_gradient_inf_norm(),
            weak_point_count: system.weak_point_count,
            minimum_point_rcond: system.minimum_point_rcond,
            point_step_rms: root::sqrt(sums.squared / n as f64),
            point_damping_norm: damping_norm,
            predicted_reduction: system.reduction_of(pose_step, problem.damping(), damping_norm),
        }
    }
}
