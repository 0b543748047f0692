// SPDX-FileCopyrightText: 2026 Pierre Moulon and OpenMVG Rust contributors
// SPDX-License-Identifier: MIT OR Apache-2.0

//! The quadratic model of the pose's five equations, and their damping: `add`, `finish_damping` and
//! `predicted_reduction` of kernel/two_view/schur.rs.

mod damping;

ghost use Rattle.std.specs.Prelude.{◌≡◌, ◌<◌};
ghost use Rattle.schur.specs.PoseModel as PoseModel;

pub(crate) use damping::{damp_hessian, pose_damping_norm};
use numerics::vectors;
use std::array;

// xᵀy from −0, as `.sum()` has it
#[tactic(auto, unfolding(crate::specs::PoseModel::dot5))]
pub(crate) fn dot5(x: [f64; 5], y: [f64; 5]) -> f64
    ensures { result ≡ PoseModel.dot5 x y }
{
    vectors::dot(x, y)
}

// x + y, entry by entry
#[tactic(auto, unfolding(crate::specs::PoseModel::sum5))]
pub(crate) fn sum5(x: [f64; 5], y: [f64; 5]) -> [f64; 5]
    ensures { result ≡ PoseModel.sum5 x y }
{
    array::from_fn(|i| x[i] + y[i])
}

// The diagonal of a 5 by 5 matrix; an array of N * N can't be named for any N
#[tactic(auto, unfolding(crate::specs::PoseModel::diagonal5))]
pub(crate) fn diagonal5(h: [f64; 25]) -> [f64; 5]
    ensures { result ≡ PoseModel.diagonal5 h }
{
    array::from_fn(|i| h[6 * i])
}

// Row i of a 5 by 5 matrix
#[tactic(auto, unfolding(crate::specs::PoseModel::hessian_row))]
fn hessian_row(h: [f64; 25], i: usize) -> [f64; 5]
    requires { i < 5 }
    ensures { result ≡ PoseModel.hessian_row h i }
{
    array::from_fn(|j| h[5 * i + j])
}

// sᵀHs, of a step s
#[tactic(auto, unfolding(crate::specs::PoseModel::quadratic))]
pub(crate) fn quadratic(h: [f64; 25], step: [f64; 5]) -> f64
    ensures { result ≡ PoseModel.quadratic h step }
{
    dot5(step, array::from_fn(|i| dot5(hessian_row(h, i), step)))
}
