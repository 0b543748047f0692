// SPDX-FileCopyrightText: 2026 Pierre Moulon and OpenMVG Rust contributors
// SPDX-License-Identifier: MIT OR Apache-2.0

//! How a point moves with a step of the pose: `point_step_with_damping_norm` of
//! kernel/two_view/schur.rs.

ghost use Rattle.std.specs.Prelude.{◌≡◌, ◌<◌};
ghost use Rattle.refusal.specs.Outcome.{outcome};
ghost use Rattle.schur.specs.PointStep as Steps;

use crate::pose_model;
use linearization::{LocalLinearization, PointTerms};
use numerics::vectors;
use point_block::point_damping::ValidDamping;
use point_block::{PointBlockFactor, point_damping};
use refusal::Refusal;
use std::array;

/// A point's step with a step of the pose
#[derive(Clone, Copy)]
pub struct PointStep {
    /// In units of the baseline
    pub step: [f64; 3],
    /// The step times the damping diagonal of the undamped point Hessian times the step
    pub damping_norm: f64,
}

/// How the point of a block moves with a step of the pose, at a damping:
/// −H_xx⁻¹ (g_x + H_pxᵀ s) with its damping norm, H_xx damped. Refuses: row 3, then row 10.
/// docs/SPECIFICATION.md, "Point step".
#[tactic(auto, unfolding(crate::specs::PointStep::point_step))]
pub fn point_step_with_damping_norm(
    local: LocalLinearization,
    damping: f64,
    pose_step: [f64; 5],
) -> Result<PointStep, Refusal>
    ensures result { result ≡ Steps.point_step local damping pose_step }
    ensures outcome { outcome Steps.zero_point_step result
        ≡ outcome Steps.zero_point_step (Steps.point_step local damping pose_step) }
{
    let damping = ValidDamping::new(damping)?;
    damped_step(PointTerms::from(local), damping, pose_step)
}

/// The step of a point at a valid damping, from what it needs of the block. Refuses: row 10.
#[tactic(auto, unfolding(crate::specs::PointStep::damped_step))]
#[inline(always)]
pub fn damped_step(
    terms: PointTerms,
    damping: ValidDamping,
    pose_step: [f64; 5],
) -> Result<PointStep, Refusal>
    ensures result { result ≡ Steps.damped_step terms damping pose_step }
    ensures outcome { outcome Steps.zero_point_step result
        ≡ outcome Steps.zero_point_step (Steps.damped_step terms damping pose_step) }
{
    let factor = PointBlockFactor::new(terms.point_hessian, damping)?;
    Ok(step_by_inverse(factor, terms, pose_step))
}

// The step by the block's factor, with its damping norm
#[tactic(auto, unfolding(crate::specs::PointStep::step_by_inverse))]
#[inline(always)]
fn step_by_inverse(factor: PointBlockFactor, terms: PointTerms, pose_step: [f64; 5]) -> PointStep
    ensures { result ≡ Steps.step_by_inverse factor.inverse terms pose_step }
{
    let step = step_of(factor, terms, pose_step);
    let diagonal = point_damping::damping_diagonal_of(terms.point_hessian);
    PointStep {
        step,
        damping_norm: damping_norm(diagonal, step),
    }
}

// −H_xx⁻¹ (g_x + H_pxᵀ s)
#[tactic(auto, unfolding(crate::specs::PointStep::step_of))]
fn step_of(factor: PointBlockFactor, terms: PointTerms, pose_step: [f64; 5]) -> [f64; 3]
    ensures { result ≡ Steps.step_of factor.inverse terms pose_step }
{
    let x = factor.solve(right_hand_side(terms, pose_step));
    x.map(|v| -v)
}

// g_x + H_pxᵀ s
#[tactic(auto, unfolding(crate::specs::PointStep::right_hand_side))]
fn right_hand_side(terms: PointTerms, pose_step: [f64; 5]) -> [f64; 3]
    ensures { result ≡ Steps.right_hand_side terms pose_step }
{
    let g = terms.point_gradient;
    let c = terms.cross_hessian;
    array::from_fn(|i| g[i] + pose_model::dot5(cross_column(c, i), pose_step))
}

// Column i of the cross Hessian, five rows of three
#[tactic(auto, unfolding(crate::specs::PointStep::cross_column))]
fn cross_column(cross: [f64; 15], i: usize) -> [f64; 5]
    requires { i < 3 }
    ensures { result ≡ Steps.cross_column cross i }
{
    array::from_fn(|j| cross[3 * j + i])
}

// xᵀ diag(d) x
#[tactic(auto, unfolding(crate::specs::PointStep::damping_norm))]
fn damping_norm(diagonal: [f64; 3], step: [f64; 3]) -> f64
    ensures { result ≡ Steps.damping_norm diagonal step }
{
    vectors::dot(array::from_fn(|i| diagonal[i] * step[i]), step)
}
