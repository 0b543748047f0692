// SPDX-FileCopyrightText: 2026 Pierre Moulon and OpenMVG Rust contributors
// SPDX-License-Identifier: MIT OR Apache-2.0

//! How the residual of view 2 moves with the pose and with the point, in `linearize_point` of
//! kernel/two_view/schur.rs.

ghost use Rattle.std.specs.Prelude.{◌≡◌, ◌<◌, ◌/◌};
ghost use Rattle.linearization.specs.Jacobians as Jacobians;

use std::array;

// How the rotated point a moves with the pose, three rows of five: by the rotation about each axis,
// then by the two vectors of the translation basis b times the baseline h
#[tactic(auto, unfolding(crate::specs::Jacobians::pose_motion_jacobian))]
#[inline(always)]
#[rattlefmt::skip]
pub(crate) fn pose_motion_jacobian(a: [f64; 3], b: [f64; 6], h: f64) -> [f64; 15]
    ensures { result ≡ Jacobians.pose_motion_jacobian a b h }
{
    [
        0.0, a[2], -a[1], h * b[0], h * b[3],
        -a[2], 0.0, a[0], h * b[1], h * b[4],
        a[1], -a[0], 0.0, h * b[2], h * b[5],
    ]
}

// The pose Jacobian, two rows of five: the projection's Jacobian j times the motion m
#[tactic(auto, unfolding(crate::specs::Jacobians::pose_jacobian))]
#[inline(always)]
pub(crate) fn pose_jacobian(j: [f64; 6], m: [f64; 15]) -> [f64; 10]
    ensures { result ≡ Jacobians.pose_jacobian j m }
{
    array::from_fn(|k| entry(j, m, k / 5, k % 5))
}

// The point Jacobian, two rows of three: the projection's Jacobian j times the rotation r, scaled
// by the baseline
#[tactic(auto, unfolding(crate::specs::Jacobians::point_jacobian))]
#[inline(always)]
pub(crate) fn point_jacobian(j: [f64; 6], r: [f64; 9], baseline: f64) -> [f64; 6]
    ensures { result ≡ Jacobians.point_jacobian j r baseline }
{
    array::from_fn(|k| entry(j, r, k / 3, k % 3) * baseline)
}

// An entry of a product of matrices with an inner dimension of 3, the right one of N / 3 columns;
// the sum begins at −0.
#[tactic(auto, unfolding(crate::specs::Jacobians::entry))]
#[inline(always)]
fn entry<const N: usize>(left: [f64; 6], right: [f64; N], row: usize, column: usize) -> f64
    requires row_in { row < 2 }
    requires column_in { column < N / 3 }
    ensures { result ≡ Jacobians.entry (N / 3) left right.entry row column }
{
    let n = N / 3;
    -0.0 + left[3 * row] * right[column]
        + left[3 * row + 1] * right[n + column]
        + left[3 * row + 2] * right[n + n + column]
}
