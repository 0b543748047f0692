// SPDX-FileCopyrightText: 2026 Pierre Moulon and OpenMVG Rust contributors
// SPDX-License-Identifier: MIT OR Apache-2.0

//! The block of a point: what it adds to the normal equations.

ghost use Rattle.std.specs.Prelude.{◌≡◌};
ghost use Rattle.refusal.specs.Outcome.{outcome};
ghost use Rattle.linearization.specs.Linearize as Linearize;

use crate::terms::PointTerms;
use crate::views::{Correspondence, LinearizedViews, Rig, TestedViews};
use crate::{accumulate, loss, terms, views};
use refusal::Refusal;

/// A point's block, `LocalLinearization` of kernel/two_view/schur.rs: the sums over both views of
/// the products of their weighted residual r, pose Jacobian J_p and point Jacobian J_x. Matrices
/// are row by row.
#[derive(Clone, Copy)]
pub struct LocalLinearization {
    /// H_pp = Σ J_pᵀ J_p, five rows of five
    pub pose_hessian: [f64; 25],
    /// H_px = Σ J_pᵀ J_x, five rows of three
    pub cross_hessian: [f64; 15],
    /// H_xx = Σ J_xᵀ J_x, three rows of three
    pub point_hessian: [f64; 9],
    /// g_p = Σ J_pᵀ r
    pub pose_gradient: [f64; 5],
    /// g_x = Σ J_xᵀ r
    pub point_gradient: [f64; 3],
    /// Half the sum of the squared lengths of the weighted residuals
    pub cost: f64,
    /// The sum of the squared lengths of the residuals before any weight, in pixels squared
    pub squared_residual: f64,
}

/// A block by the formulas alone, beside whether rows 4 and 9 let its correspondence through
#[derive(Clone, Copy)]
pub struct TestedBlock {
    /// The block, whose entries may be infinite or a NaN
    pub block: LocalLinearization,
    /// Whether rows 4 and 9 let the correspondence through
    pub accepted: bool,
}

/// The block of a correspondence: the Rust's `linearize_point` with plain squares as its loss.
/// Refuses: row 4, then row 9 with view 1, then row 9 with view 2.
#[tactic(auto, unfolding(crate::specs::Linearize::linearize_point))]
pub fn linearize_point(
    rig: &Rig,
    correspondence: Correspondence,
) -> Result<LocalLinearization, Refusal>
    ensures result { result ≡ Linearize.linearize_point rig.now correspondence }
    ensures outcome { outcome Linearize.zero_linearization result
        ≡ outcome Linearize.zero_linearization (Linearize.linearize_point rig.now correspondence) }
{
    let TestedBlock { block, accepted } = tested_block(rig, correspondence);
    if !accepted {
        views::check_views(rig, correspondence)?;
    }
    Ok(block)
}

/// `linearize_point` with the verdict as a flag in place of rows 4 and 9: a loop takes it by value,
/// where a `Result` is copied. Inlined into the loop with all that it calls, so that the block
/// stays where it is used.
#[tactic(auto, unfolding(crate::specs::Linearize::block_of))]
#[inline(always)]
pub fn tested_block(rig: &Rig, correspondence: Correspondence) -> TestedBlock
    ensures { result ≡ Linearize.tested_block rig.now correspondence }
{
    let TestedViews { views, accepted } = views::tested_views(rig, correspondence);
    TestedBlock {
        block: block(views, correspondence.inverse_standard_deviation),
        accepted,
    }
}

/// The block of a correspondence by the formulas alone, for one that rows 4 and 9 are known to let
/// through: there it is the block of `linearize_point`.
pub fn block_of(rig: &Rig, correspondence: Correspondence) -> LocalLinearization
    ensures { result ≡ Linearize.block_of rig.now correspondence }
{
    // the verdict is not read, so that its tests are left out
    tested_block(rig, correspondence).block
}

// The block of two views: each adds to the cost and to the squared residual.
#[tactic(auto, unfolding(crate::specs::Linearize::block))]
#[inline(always)]
fn block(views: LinearizedViews, inverse_standard_deviation: f64) -> LocalLinearization
    ensures { result ≡ Linearize.block views inverse_standard_deviation }
{
    let norm1 = loss::norm(views.residual1);
    let norm2 = loss::norm(views.residual2);
    let cost = 0.0
        + loss::loss_cost(norm1 * inverse_standard_deviation)
        + loss::loss_cost(norm2 * inverse_standard_deviation);
    sums(views, cost, 0.0 + norm1 * norm1 + norm2 * norm2)
}

// The block of two views, with its cost and its squared residual
#[tactic(auto, unfolding(crate::specs::Linearize::sums))]
#[inline(always)]
fn sums(views: LinearizedViews, cost: f64, squared_residual: f64) -> LocalLinearization
    ensures { result ≡ Linearize.sums views cost squared_residual }
{
    let LinearizedViews { first, second, .. } = views;
    let pose1 = [first.pose_zero; 10];
    let pose2 = second.pose;
    let PointTerms {
        cross_hessian,
        point_hessian,
        point_gradient,
    } = terms::terms(first, second);
    LocalLinearization {
        pose_hessian: accumulate::pose_hessian(pose1, pose2),
        cross_hessian,
        point_hessian,
        pose_gradient: accumulate::pose_gradient(pose1, first.residual, pose2, second.residual),
        point_gradient,
        cost,
        squared_residual,
    }
}
