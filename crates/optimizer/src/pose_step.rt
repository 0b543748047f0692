// SPDX-FileCopyrightText: 2026 Pierre Moulon and OpenMVG Rust contributors
// SPDX-License-Identifier: MIT OR Apache-2.0

//! The step of the pose, limited in length: `limit_pose_step` of kernel/two_view/optimizer.rs.

ghost use Rattle.std.specs.Prelude.{◌≡◌};
ghost use Rattle.numerics.specs.Vectors as Vectors;
ghost use Rattle.optimizer.specs.PoseStep as PoseStep;
ghost use Rattle.root.specs.Root as Root;

use numerics::{extrema, vectors};

// The most that a step turns or moves the second camera: radians, or parts of the baseline
const MAX_LENGTH: f64 = 0.5;

/// A pose step (rotation, 3; translation, 2), scaled down where the longer of its two parts is
/// above 0.5, so that this part is 0.5 long. Where both lengths are NaN the step stays as it is.
/// Refuses nothing. docs/SPECIFICATION.md, "Whole step".
#[tactic(auto, unfolding(crate::specs::PoseStep::limit_pose_step))]
pub fn limit_pose_step(x: [f64; 5]) -> [f64; 5]
    ensures { result ≡ PoseStep.limit_pose_step x }
{
    let length = step_length(x);
    if MAX_LENGTH < length {
        return scaled_step(x, MAX_LENGTH / length);
    }
    x
}

// by · x
fn scaled_step(x: [f64; 5], by: f64) -> [f64; 5]
    ensures { result ≡ PoseStep.scaled_step x by }
{
    x.map(|v| v * by)
}

// The longer of the rotation's and the translation's part; each sum begins at −0.
fn step_length(x: [f64; 5]) -> f64
    ensures { result ≡ PoseStep.step_length x }
{
    extrema::max(length([x[0], x[1], x[2]]), length([x[3], x[4]]))
}

// √(v · v)
fn length<const N: usize>(v: [f64; N]) -> f64
    ensures { result ≡ Root.sqrt (Vectors.dot N v.entry v.entry) }
{
    root::sqrt(vectors::dot(v, v))
}

// The pose step of a solution x of the reduced system: −x, limited
#[tactic(auto, unfolding(crate::specs::PoseStep::negated_limited_step))]
pub(crate) fn negated_limited_step(x: [f64; 5]) -> [f64; 5]
    ensures { result ≡ PoseStep.negated_limited_step x }
{
    limit_pose_step(x.map(|v| -v))
}
