// SPDX-FileCopyrightText: 2026 Pierre Moulon and OpenMVG Rust contributors
// SPDX-License-Identifier: MIT OR Apache-2.0

//! The sums of a point's block, `LocalLinearization::accumulate` of kernel/two_view/schur.rs: each
//! entry is the product of two columns of the weighted rows. A column has four numbers, two of view
//! 1 and then two of view 2.

ghost use Rattle.std.specs.Prelude.{◌≡◌, ◌<◌, ◌/◌};
ghost use Rattle.linearization.specs.Accumulate as Accumulate;

use std::array;

// Column k of both views' rows, where a row has N / 2 numbers
#[tactic(auto, unfolding(crate::specs::Accumulate::column))]
#[inline(always)]
fn column<const N: usize>(a: [f64; N], b: [f64; N], k: usize) -> [f64; 4]
    requires { k < N / 2 }
    ensures { result ≡ Accumulate.column (N / 2) a.entry b.entry k }
{
    [a[k], a[N / 2 + k], b[k], b[N / 2 + k]]
}

// The product of two columns; the sum begins at +0.
#[tactic(auto, unfolding(crate::specs::Accumulate::product))]
#[inline(always)]
fn product(x: [f64; 4], y: [f64; 4]) -> f64
    ensures { result ≡ Accumulate.product x y }
{
    0.0 + x[0] * y[0] + x[1] * y[1] + x[2] * y[2] + x[3] * y[3]
}

// H_pp of the pose rows a and b. Filled row by row, as the next is: filled number by number by
// `from_fn`, either takes ten times as long.
#[tactic(auto, using(numerics::proofs::Fill::array_none, numerics::proofs::Fill::row_of_five))]
#[inline(always)]
pub(crate) fn pose_hessian(a: [f64; 10], b: [f64; 10]) -> [f64; 25]
    ensures { result ≡ Accumulate.pose_hessian a b }
{
    let c0 = column(a, b, 0);
    let c1 = column(a, b, 1);
    let c2 = column(a, b, 2);
    let c3 = column(a, b, 3);
    let c4 = column(a, b, 4);
    let mut h = [0.0; 25];
    for i in 0..5 {
        let x = column(a, b, i);
        h[5 * i] = product(x, c0);
        h[5 * i + 1] = product(x, c1);
        h[5 * i + 2] = product(x, c2);
        h[5 * i + 3] = product(x, c3);
        h[5 * i + 4] = product(x, c4);
    }
    h
}

// H_px of the pose rows a and b and the point rows p and q
#[tactic(auto, using(numerics::proofs::Fill::array_none, numerics::proofs::Fill::row_of_three))]
#[inline(always)]
pub(crate) fn cross_hessian(a: [f64; 10], p: [f64; 6], b: [f64; 10], q: [f64; 6]) -> [f64; 15]
    ensures { result ≡ Accumulate.cross_hessian a p b q }
{
    let c0 = column(p, q, 0);
    let c1 = column(p, q, 1);
    let c2 = column(p, q, 2);
    let mut h = [0.0; 15];
    for i in 0..5 {
        let row = column(a, b, i);
        h[3 * i] = product(row, c0);
        h[3 * i + 1] = product(row, c1);
        h[3 * i + 2] = product(row, c2);
    }
    h
}

// H_xx of the point rows p and q
#[tactic(auto, unfolding(crate::specs::Accumulate::point_hessian))]
#[inline(always)]
pub(crate) fn point_hessian(p: [f64; 6], q: [f64; 6]) -> [f64; 9]
    ensures { result ≡ Accumulate.point_hessian p q }
{
    array::from_fn(|k| product(column(p, q, k / 3), column(p, q, k % 3)))
}

// g_p of the pose rows a and b and the residuals u and v
#[tactic(auto, unfolding(crate::specs::Accumulate::pose_gradient))]
#[inline(always)]
pub(crate) fn pose_gradient(a: [f64; 10], u: [f64; 2], b: [f64; 10], v: [f64; 2]) -> [f64; 5]
    ensures { result ≡ Accumulate.pose_gradient a u b v }
{
    array::from_fn(|i| product(column(a, b, i), column(u, v, 0)))
}

// g_x of the point rows p and q and the residuals u and v
#[tactic(auto, unfolding(crate::specs::Accumulate::point_gradient))]
#[inline(always)]
pub(crate) fn point_gradient(p: [f64; 6], u: [f64; 2], q: [f64; 6], v: [f64; 2]) -> [f64; 3]
    ensures { result ≡ Accumulate.point_gradient p u q v }
{
    array::from_fn(|i| product(column(p, q, i), column(u, v, 0)))
}
