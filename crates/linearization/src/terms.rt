// SPDX-FileCopyrightText: 2026 Pierre Moulon and OpenMVG Rust contributors
// SPDX-License-Identifier: MIT OR Apache-2.0

//! What the step of a point needs of its block.

ghost use Rattle.std.specs.Prelude.{◌≡◌};
ghost use Rattle.linearization.specs.Linearize as Linearize;

use crate::linearize::LocalLinearization;
use crate::views::{Correspondence, Rig, View1, View2};
use crate::{accumulate, views};

/// What the step of a point needs of its block, row by row: neither the pose's own terms nor the
/// cost, so that the second pass over the points makes no more than this.
#[derive(Clone, Copy)]
pub struct PointTerms {
    /// H_px, five rows of three
    pub cross_hessian: [f64; 15],
    /// H_xx, three rows of three
    pub point_hessian: [f64; 9],
    /// g_x
    pub point_gradient: [f64; 3],
}

/// The terms of the block that `block_of` gives for the correspondence
#[rattlefmt::skip]
#[tactic(auto, unfolding(
    crate::specs::Linearize::block_of, crate::specs::Linearize::block,
    crate::specs::Linearize::sums, crate::specs::Linearize::point_terms))]
#[inline(always)]
pub fn terms_of(rig: &Rig, correspondence: Correspondence) -> PointTerms
    ensures { result ≡ Linearize.point_terms (Linearize.block_of rig.now correspondence) }
{
    // the verdict is not read, so that its tests are left out
    let views = views::tested_views(rig, correspondence).views;
    terms(views.first, views.second)
}

// The terms of a block
impl From<LocalLinearization> for PointTerms {
    ghost from_gives = { λ local terms. terms ≡ Linearize.point_terms local };

    #[tactic(auto, unfolding(crate::specs::Linearize::point_terms))]
    fn from(local: LocalLinearization) -> Self {
        let LocalLinearization {
            cross_hessian,
            point_hessian,
            point_gradient,
            ..
        } = local;
        PointTerms {
            cross_hessian,
            point_hessian,
            point_gradient,
        }
    }
}

// The terms of both views. The ten entries of view 1's pose Jacobian are one number.
#[tactic(auto, unfolding(crate::specs::Linearize::terms))]
#[inline(always)]
pub(crate) fn terms(first: View1, second: View2) -> PointTerms
    ensures { result ≡ Linearize.terms first second }
{
    let pose1 = [first.pose_zero; 10];
    PointTerms {
        cross_hessian: accumulate::cross_hessian(pose1, first.point, second.pose, second.point),
        point_hessian: accumulate::point_hessian(first.point, second.point),
        point_gradient: accumulate::point_gradient(
            first.point,
            first.residual,
            second.point,
            second.residual,
        ),
    }
}
