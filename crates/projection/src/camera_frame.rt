// SPDX-FileCopyrightText: 2026 Pierre Moulon and OpenMVG Rust contributors
// SPDX-License-Identifier: MIT OR Apache-2.0

//! A point in the second camera's frame: rotated, then moved by the translation, as in
//! `linearize_point` of kernel/two_view/schur.rs.

ghost use Rattle.std.specs.Prelude.{◌≡◌};
ghost use Rattle.projection.specs.CameraFrame as CameraFrame;

use std::array;

/// Where an entry of the rotation or of the translation is not finite, row 9 meets every point in
/// the second view, whatever the camera and the observation. A theorem: nothing runs.
pub fn non_finite_pose_is_not_projectable()
    ensures { CameraFrame.NonFinitePoseIsNotProjectable }
{}

/// The rotation times the point; the rotation is nine numbers, row by row.
#[tactic(auto, unfolding(crate::specs::CameraFrame::rotate))]
#[inline(always)]
pub fn rotate(rotation: [f64; 9], point: [f64; 3]) -> [f64; 3]
    ensures { result ≡ CameraFrame.rotate rotation point }
{
    array::from_fn(|i| {
        let row = 3 * i;
        rotation[row] * point[0] + rotation[row + 1] * point[1] + rotation[row + 2] * point[2]
    })
}

/// A rotated point moved by the translation: the point in the second camera's frame
#[tactic(auto, unfolding(crate::specs::CameraFrame::camera_point))]
#[inline(always)]
pub fn camera_point(rotated: [f64; 3], translation: [f64; 3]) -> [f64; 3]
    ensures { result ≡ CameraFrame.camera_point rotated translation }
{
    array::from_fn(|i| rotated[i] + translation[i])
}
