// SPDX-FileCopyrightText: 2026 Pierre Moulon and OpenMVG Rust contributors
// SPDX-License-Identifier: MIT OR Apache-2.0

//! Both views of a point, linearized and weighted: residuals, with their derivatives by the five
//! parameters of the pose and by the three coordinates of the point. The first half of
//! `linearize_point` of kernel/two_view/schur.rs.

ghost use Rattle.std.specs.Prelude.{◌<◌, ◌≡◌};
ghost use Rattle.numerics.specs.Binary64.{◌⊗◌};
ghost use Rattle.numerics.specs.Vectors.{◌!◌};
ghost use Rattle.linearization.specs.Views as Views;

use crate::{jacobians, loss};
use projection::{PinholeCamera, Projection};
use refusal::{Refusal, View};
use std::array;

/// How the second camera sits against the first
#[derive(Clone, Copy)]
pub struct RelativePose {
    /// Three rows of three
    pub rotation: [f64; 9],
    /// In the second camera's frame, in the unit of the points
    pub translation: [f64; 3],
    // here, between arrays: a longer run of them would be copied by a call of the C library
    /// The length that a step along the translation basis and a step of a point are in units of
    pub baseline: f64,
    /// Two vectors of three that span the tangent plane of the translation's direction
    pub translation_basis: [f64; 6],
}

/// The two cameras, and how the second one sits. Camera 1 is the world's frame.
#[derive(Clone, Copy)]
pub struct Rig {
    /// The camera of view 1
    pub camera1: PinholeCamera,
    /// The camera of view 2
    pub camera2: PinholeCamera,
    /// How camera 2 sits against camera 1
    pub pose: RelativePose,
}

/// A point, seen by both cameras
#[derive(Clone, Copy)]
pub struct Correspondence {
    /// In camera 1's frame
    pub point: [f64; 3],
    /// The observation in view 1, in pixels
    pub view1: [f64; 2],
    /// The observation in view 2, in pixels
    pub view2: [f64; 2],
    /// Of both observations, in 1 ÷ pixels
    pub inverse_standard_deviation: f64,
}

/// The weighted rows of view 1
#[derive(Clone, Copy)]
pub struct View1 {
    /// The residual times the weight
    pub residual: [f64; 2],
    /// Each of the ten entries of the pose Jacobian
    pub pose_zero: f64,
    /// The point Jacobian, two rows of three
    pub point: [f64; 6],
}

/// The weighted rows of view 2
#[derive(Clone, Copy)]
pub struct View2 {
    /// The residual times the weight
    pub residual: [f64; 2],
    /// The pose Jacobian, two rows of five
    pub pose: [f64; 10],
    /// The point Jacobian, two rows of three
    pub point: [f64; 6],
}

/// The weighted rows of both views, with their residuals before any weight
#[derive(Clone, Copy)]
pub struct LinearizedViews {
    /// View 1's rows
    pub first: View1,
    /// View 2's rows
    pub second: View2,
    /// View 1's residual before the weight, in pixels
    pub residual1: [f64; 2],
    /// View 2's residual before the weight, in pixels
    pub residual2: [f64; 2],
}

// Both views by the formulas alone, beside whether rows 4 and 9 let them through
#[derive(Clone, Copy)]
pub(crate) struct TestedViews {
    pub views: LinearizedViews,
    pub accepted: bool,
}

// Both views of a correspondence. The tests are made together and give a flag: `check_views` says
// which row refuses, where one does.
#[tactic(auto, using(crate::proofs::Tested::accepted_is), unfolding(crate::specs::Views::views_of))]
#[inline(always)]
pub(crate) fn tested_views(rig: &Rig, correspondence: Correspondence) -> TestedViews
    ensures { result ≡ Views.tested_views rig.now correspondence }
{
    let Correspondence {
        point,
        view1,
        view2,
        inverse_standard_deviation,
    } = correspondence;
    let rotated = projection::rotate(rig.pose.rotation, point);
    let moved = projection::camera_point(rotated, rig.pose.translation);
    let first = projection::tested_projection(&rig.camera1, view1, point);
    let second = projection::tested_projection(&rig.camera2, view2, moved);
    let views = weighted_views(
        first.projection,
        second.projection,
        rotated,
        &rig.pose,
        inverse_standard_deviation,
    );
    TestedViews {
        views,
        accepted: is_valid_inverse_standard_deviation(inverse_standard_deviation)
            & first.projectable
            & second.projectable,
    }
}

// Row 4, then row 9 with view 1 or 2. Out of line, as it is asked only where one of them refuses.
#[tactic(auto, unfolding(crate::specs::Views::check_views))]
#[cold]
#[inline(never)]
pub(crate) fn check_views(rig: &Rig, correspondence: Correspondence) -> Result<(), Refusal>
    ensures { result ≡ Views.check_views rig.now correspondence }
{
    let Correspondence {
        point,
        view1,
        view2,
        inverse_standard_deviation,
    } = correspondence;
    if !is_valid_inverse_standard_deviation(inverse_standard_deviation) {
        return Err(Refusal::InverseStandardDeviation { index: 0 });
    }
    if projection::pixel_projection(&rig.camera1, view1, point).is_err() {
        return Err(Refusal::PointNotProjectable {
            view: View::First,
            index: 0,
        });
    }
    let rotated = projection::rotate(rig.pose.rotation, point);
    let moved = projection::camera_point(rotated, rig.pose.translation);
    if projection::pixel_projection(&rig.camera2, view2, moved).is_err() {
        return Err(Refusal::PointNotProjectable {
            view: View::Second,
            index: 0,
        });
    }
    Ok(())
}

/// Whether row 4 lets an inverse standard deviation through: finite and above 0
#[tactic(auto, unfolding(crate::specs::Views::is_valid_inverse_standard_deviation))]
#[inline(always)]
pub fn is_valid_inverse_standard_deviation(x: f64) -> bool
    ensures { result ≡ Views.is_valid_inverse_standard_deviation x }
{
    numerics::is_finite(x) & !(x <= 0.0)
}

// Both views from their projections, the rotated point, the pose and the inverse standard deviation
#[tactic(auto, unfolding(crate::specs::Views::weighted_views))]
#[inline(always)]
fn weighted_views(
    first: Projection,
    second: Projection,
    rotated: [f64; 3],
    pose: &RelativePose,
    isd: f64,
) -> LinearizedViews
    ensures { result ≡ Views.weighted_views first second rotated pose.now isd }
{
    let residual1 = first.residual;
    let residual2 = second.residual;
    let weight1 = loss::row_weight(residual1, isd);
    let weight2 = loss::row_weight(residual2, isd);
    LinearizedViews {
        first: weighted_view1(first, pose, weight1),
        second: weighted_view2(second, rotated, pose, weight2),
        residual1,
        residual2,
    }
}

// View 1 sees the point where it is, so the pose moves nothing: weight × 0, which shows where the
// weight is infinite.
#[tactic(auto, unfolding(crate::specs::Views::weighted_view1))]
#[inline(always)]
fn weighted_view1(projection: Projection, pose: &RelativePose, weight: f64) -> View1
    ensures { result ≡ Views.weighted_view1 projection pose.now weight }
{
    let Projection { residual, jacobian } = projection;
    let baseline = pose.baseline;
    View1 {
        residual: weighted_entries(residual, weight),
        pose_zero: weight * 0.0,
        point: array::from_fn(|i| weight * (jacobian[i] * baseline)),
    }
}

// View 2 sees the rotated point, which moves with the pose.
#[tactic(auto, unfolding(crate::specs::Views::weighted_view2))]
#[inline(always)]
fn weighted_view2(
    projection: Projection,
    rotated: [f64; 3],
    pose: &RelativePose,
    weight: f64,
) -> View2
    ensures { result ≡ Views.weighted_view2 projection rotated pose.now weight }
{
    let Projection { residual, jacobian } = projection;
    let motion = jacobians::pose_motion_jacobian(rotated, pose.translation_basis, pose.baseline);
    let by_pose = jacobians::pose_jacobian(jacobian, motion);
    let by_point = jacobians::point_jacobian(jacobian, pose.rotation, pose.baseline);
    View2 {
        residual: weighted_entries(residual, weight),
        pose: weighted_entries(by_pose, weight),
        point: weighted_entries(by_point, weight),
    }
}

// Each number times the weight
#[inline(always)]
fn weighted_entries<const N: usize>(numbers: [f64; N], weight: f64) -> [f64; N]
    ensures { result ≡ Views.weighted_entries N weight numbers.entry }
{
    array::from_fn(
        |i|
            requires { i < N }
            ensures { result ≡ weight ⊗ numbers ! i }
        { weight * numbers[i] },
    )
}
