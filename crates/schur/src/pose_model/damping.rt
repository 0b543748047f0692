// SPDX-FileCopyrightText: 2026 Pierre Moulon and OpenMVG Rust contributors
// SPDX-License-Identifier: MIT OR Apache-2.0

//! The damping of the pose's five equations: `finish_damping` and `predicted_reduction` of
//! kernel/two_view/schur.rs.

ghost use Rattle.std.specs.Prelude.{◌≡◌, ◌<◌, List, Float};
ghost use Rattle.numerics.specs.Vectors.{◌!◌};
ghost use Rattle.schur.specs.PoseDamping as PoseDamping;

use numerics::extrema;
use std::array;

// 64ε · max(the largest entry, the smallest normal number)
#[tactic(auto, unfolding(crate::specs::PoseDamping::pose_floor))]
fn pose_floor(d: [f64; 5]) -> f64
    ensures { result ≡ PoseDamping.pose_floor d }
{
    numerics::RELATIVE_TOLERANCE * extrema::max(extrema::fold_max(d), numerics::MIN_POSITIVE)
}

// The pose diagonal with each entry at least the floor
#[tactic(auto, unfolding(crate::specs::PoseDamping::damping_diagonal))]
fn damping_diagonal(d: [f64; 5]) -> [f64; 5]
    ensures { result ≡ PoseDamping.damping_diagonal d }
{
    let floor = pose_floor(d);
    array::from_fn(|i| extrema::max(d[i], floor))
}

// Adds the damping to the Hessian's diagonal alone, in place.
pub(crate) fn damp_hessian(h: &mut [f64; 25], d: [f64; 5], damping: f64)
    ensures { h.new ≡ PoseDamping.damped_hessian h.old d damping }
{
    let diagonal = damping_diagonal(d);
    for k in 0..25 {
        h[k] = damped_entry(h[k], diagonal, damping, k);
    }
}

// Entry k of the damped Hessian; every sixth is on the diagonal
#[tactic(auto, unfolding(crate::specs::PoseDamping::damped_entry))]
fn damped_entry(entry: f64, diagonal: [f64; 5], damping: f64, k: usize) -> f64
    requires { k < 25 }
    ensures { (h : List Float) → entry ≡ h ! k
        → result ≡ PoseDamping.damped_entry h diagonal damping k }
{
    if k % 6 == 0 {
        entry + damping * diagonal[k / 6]
    } else {
        entry
    }
}

// sᵀ diag(damping diagonal) s, of a step s of the pose
#[tactic(auto, unfolding(crate::specs::PoseDamping::pose_damping_norm, crate::specs::PoseModel::dot5))]
pub(crate) fn pose_damping_norm(d: [f64; 5], step: [f64; 5]) -> f64
    ensures { result ≡ PoseDamping.pose_damping_norm d step }
{
    let diagonal = damping_diagonal(d);
    crate::pose_model::dot5(array::from_fn(|i| diagonal[i] * step[i]), step)
}
