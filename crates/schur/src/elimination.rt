// SPDX-FileCopyrightText: 2026 Pierre Moulon and OpenMVG Rust contributors
// SPDX-License-Identifier: MIT OR Apache-2.0

//! What a block makes of the equations of the pose once its point is eliminated: the Schur
//! complement of `add` in kernel/two_view/schur.rs.

mod block_elimination;

ghost use Rattle.std.specs.Prelude.{◌≡◌, ◌<◌};
ghost use Rattle.schur.specs.SchurComplement as SchurComplement;

pub(crate) use block_elimination::eliminate;
use linearization::LocalLinearization;
use point_block::PointBlockFactor;
use std::array;

// S += H_pp − H_px H_xx⁻¹ H_pxᵀ. A row at a time: by `array::from_fn` over 25 entries a call is
// left, and the matrices go through memory.
#[tactic(auto, using(numerics::proofs::Fill::array_none, numerics::proofs::Fill::row_of_five))]
#[inline(always)]
pub(crate) fn reduced_hessian(
    h: [f64; 25],
    factor: PointBlockFactor,
    local: LocalLinearization,
) -> [f64; 25]
    ensures { result ≡ SchurComplement.reduced_hessian h factor.inverse local }
{
    let p = local.pose_hessian;
    let c = local.cross_hessian;
    let x0 = factor.solve(cross_row(c, 0));
    let x1 = factor.solve(cross_row(c, 1));
    let x2 = factor.solve(cross_row(c, 2));
    let x3 = factor.solve(cross_row(c, 3));
    let x4 = factor.solve(cross_row(c, 4));
    let mut out = [0.0; 25];
    for i in 0..5 {
        let row = cross_row(c, i);
        let k = 5 * i;
        out[k] = h[k] + (p[k] - dot3(row, x0));
        out[k + 1] = h[k + 1] + (p[k + 1] - dot3(row, x1));
        out[k + 2] = h[k + 2] + (p[k + 2] - dot3(row, x2));
        out[k + 3] = h[k + 3] + (p[k + 3] - dot3(row, x3));
        out[k + 4] = h[k + 4] + (p[k + 4] - dot3(row, x4));
    }
    out
}

// g += g_p − H_px H_xx⁻¹ g_x
#[tactic(auto, unfolding(crate::specs::SchurComplement::reduced_gradient))]
#[inline(always)]
pub(crate) fn reduced_gradient(
    g: [f64; 5],
    factor: PointBlockFactor,
    local: LocalLinearization,
) -> [f64; 5]
    ensures { result ≡ SchurComplement.reduced_gradient g factor.inverse local }
{
    let p = local.pose_gradient;
    let c = local.cross_hessian;
    let x = inverse_gradient(factor, local);
    array::from_fn(|i| g[i] + (p[i] - dot3(cross_row(c, i), x)))
}

// What the points gain by themselves: ½ g_xᵀ H_xx⁻¹ g_x more
#[tactic(auto, unfolding(crate::specs::SchurComplement::point_reduction))]
#[inline(always)]
pub(crate) fn point_reduction(
    reduction: f64,
    factor: PointBlockFactor,
    local: LocalLinearization,
) -> f64
    ensures { result ≡ SchurComplement.point_reduction reduction factor.inverse local }
{
    let gradient = local.point_gradient;
    reduction + 0.5 * dot3(gradient, inverse_gradient(factor, local))
}

// H_xx⁻¹ g_x
#[tactic(auto, unfolding(crate::specs::SchurComplement::inverse_gradient))]
#[inline(always)]
fn inverse_gradient(factor: PointBlockFactor, local: LocalLinearization) -> [f64; 3]
    ensures { result ≡ SchurComplement.inverse_gradient factor.inverse local }
{
    let gradient = local.point_gradient;
    factor.solve(gradient)
}

// Row i of the cross Hessian, five rows of three
#[tactic(auto, unfolding(crate::specs::SchurComplement::cross_row))]
#[inline(always)]
fn cross_row(cross: [f64; 15], i: usize) -> [f64; 3]
    requires { i < 5 }
    ensures { result ≡ SchurComplement.cross_row cross i }
{
    array::from_fn(|j| cross[3 * i + j])
}

// xᵀy; not `vectors::dot`, which begins at −0
#[tactic(auto, unfolding(crate::specs::SchurComplement::dot3))]
#[inline(always)]
fn dot3(x: [f64; 3], y: [f64; 3]) -> f64
    ensures { result ≡ SchurComplement.dot3 x y }
{
    x[0] * y[0] + x[1] * y[1] + x[2] * y[2]
}
