// SPDX-FileCopyrightText: 2026 Pierre Moulon and OpenMVG Rust contributors
// SPDX-License-Identifier: MIT OR Apache-2.0

//! The reduced system: the five equations of the pose once each point is eliminated,
//! `ReducedSystem` of kernel/two_view/schur.rs. Here is what is asked of it; `reduced_add` takes
//! blocks in.

ghost use Rattle.std.specs.Prelude.{◌≡◌};
ghost use Rattle.numerics.specs.Binary64.{zero};
ghost use Rattle.refusal.specs.Outcome.{outcome};
ghost use Rattle.schur.specs.Reduced as Reduced;

use crate::{gradient_norm, pose_model};
use numerics::{extrema, vectors};
use point_block::point_damping::ValidDamping;
use refusal::Refusal;

/// The equations of the pose, with the sums and the counts over the blocks taken in. The pose has
/// five parameters, three of rotation and two along the translation basis.
/// docs/SPECIFICATION.md, "Reduced system".
#[derive(Clone, Copy)]
pub struct ReducedSystem {
    /// 5 by 5, row by row: the Schur complement of the points
    pub hessian: [f64; 25],
    /// The gradient with the points eliminated
    pub gradient: [f64; 5],
    // here, as it begins at 1: a longer run of zeros would be set by a call of the C library
    /// The smallest rcond of a block at damping zero, and 1 where there is none
    pub minimum_point_rcond: f64,
    /// Half the sum of the weighted squared residuals
    pub cost: f64,
    /// The sum of the squared residuals, unweighted
    pub squared_residual: f64,
    /// The gradient of the pose before any elimination
    pub full_pose_gradient: [f64; 5],
    /// The diagonal of the pose's Hessian before any elimination
    pub pose_diagonal: [f64; 5],
    /// What the points gain by themselves, with the pose held
    pub point_model_reduction: f64,
    /// The largest scaled gradient entry of a point
    pub scaled_point_gradient_inf_norm: f64,
    /// How many blocks were weak, at damping zero
    pub weak_point_count: u16,
    /// Whether every block factored; the sums are there either way
    pub valid: bool,
    /// How many blocks were taken in
    pub block_count: u16,
}

impl ReducedSystem {
    /// A system with no block: +0 everywhere, but 1 as the smallest rcond; valid
    #[tactic(auto, unfolding(crate::specs::Reduced::new_system))]
    pub fn new() -> Self
        ensures { result ≡ Reduced.new_system }
    {
        Self {
            hessian: [0.0; 25],
            gradient: [0.0; 5],
            cost: 0.0,
            squared_residual: 0.0,
            full_pose_gradient: [0.0; 5],
            pose_diagonal: [0.0; 5],
            point_model_reduction: 0.0,
            scaled_point_gradient_inf_norm: 0.0,
            weak_point_count: 0,
            minimum_point_rcond: 1.0,
            valid: true,
            block_count: 0,
        }
    }

    /// The system with the damping added to the diagonal of its Hessian. Refuses: row 3.
    #[tactic(auto, unfolding(crate::specs::Reduced::finish_damping))]
    pub fn finish_damping(mut self, damping: f64) -> Result<Self, Refusal>
        ensures result { result ≡ Reduced.finish_damping self damping }
        ensures outcome { outcome self result ≡ outcome self (Reduced.finish_damping self damping) }
    {
        let damping = ValidDamping::new(damping)?;
        self.damp(damping);
        Ok(self)
    }

    /// `finish_damping` on a lent system, at a valid damping
    pub fn damp(&mut self, damping: ValidDamping)
        ensures { self.new ≡ Reduced.with_damping self.old damping }
    {
        pose_model::damp_hessian(&mut self.hessian, self.pose_diagonal, damping.value());
    }

    /// Whether every block taken in factored and every entry of the equations is finite
    #[tactic(auto, unfolding(crate::specs::Reduced::is_valid))]
    pub fn is_valid(&self) -> bool
        ensures { result ≡ Reduced.is_valid self.now }
    {
        self.valid & vectors::all_finite(&self.gradient) & vectors::all_finite(&self.hessian)
    }

    /// The largest scaled gradient entry of all points and of the pose
    #[tactic(auto, unfolding(crate::specs::Reduced::gradient_inf_norm))]
    pub fn scaled_gradient_inf_norm(&self) -> f64
        ensures { result ≡ Reduced.gradient_inf_norm self.now }
    {
        let pose = gradient_norm::norm(self.full_pose_gradient, self.pose_diagonal);
        extrema::max(self.scaled_point_gradient_inf_norm, pose)
    }

    /// What a step of the pose is predicted to gain, with the damping norm of the points' steps:
    /// reduction of the points − gᵀs − ½ sᵀSs + ½ damping (pose damping norm + point damping norm).
    /// Refuses: row 3.
    #[tactic(auto, unfolding(crate::specs::Reduced::predicted_reduction))]
    pub fn predicted_reduction(
        &self,
        step: [f64; 5],
        damping: f64,
        point_damping_norm: f64,
    ) -> Result<f64, Refusal>
        ensures result { result
            ≡ Reduced.predicted_reduction self.now step damping point_damping_norm }
        ensures outcome { outcome zero result
            ≡ outcome zero (Reduced.predicted_reduction self.now step damping point_damping_norm) }
    {
        let damping = ValidDamping::new(damping)?;
        Ok(self.reduction_of(step, damping, point_damping_norm))
    }

    /// `predicted_reduction` at a valid damping
    #[tactic(auto, unfolding(crate::specs::Reduced::reduction_of))]
    pub fn reduction_of(
        &self,
        step: [f64; 5],
        damping: ValidDamping,
        point_damping_norm: f64,
    ) -> f64
        ensures { result ≡ Reduced.reduction_of self.now step damping point_damping_norm }
    {
        let undamped = self.point_model_reduction
            - pose_model::dot5(self.gradient, step)
            - 0.5 * pose_model::quadratic(self.hessian, step);
        let damping_norm = pose_model::pose_damping_norm(self.pose_diagonal, step);
        undamped + 0.5 * damping.value() * (damping_norm + point_damping_norm)
    }
}
