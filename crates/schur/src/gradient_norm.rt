// SPDX-FileCopyrightText: 2026 Pierre Moulon and OpenMVG Rust contributors
// SPDX-License-Identifier: MIT OR Apache-2.0

//! The largest entry of a gradient, each scaled by the root of its curvature:
//! `scaled_gradient_inf_norm` of kernel/two_view/schur.rs.

ghost use Rattle.std.specs.Prelude.{◌≡◌, ◌<◌};
ghost use Rattle.schur.specs.GradientNorm as GradientNorm;
ghost use Rattle.numerics.specs.Vectors.{◌!◌};

use numerics::extrema;
use std::array;

// That of a point's gradient, by the diagonal of its Hessian
#[tactic(auto, unfolding(crate::specs::GradientNorm::point_gradient_norm))]
#[inline(always)]
pub(crate) fn point_gradient_norm(gradient: [f64; 3], hessian: [f64; 9]) -> f64
    ensures { result ≡ GradientNorm.point_gradient_norm gradient hessian }
{
    norm(gradient, [hessian[0], hessian[4], hessian[8]])
}

// The largest scaled entry of N, by a gradient and its curvatures
#[inline(always)]
pub(crate) fn norm<const N: usize>(g: [f64; N], d: [f64; N]) -> f64
    ensures { result ≡ GradientNorm.scaled_gradient_inf_norm N g.entry d.entry }
{
    let scale = extrema::fold_max(d);
    if !numerics::is_positive_finite(scale) {
        return norm_without_scale(g.iter().all(|x| *x == 0.0));
    }
    let floor = numerics::RELATIVE_TOLERANCE * scale;
    extrema::fold_max::<N>(array::from_fn(
        |i|
            requires { i < N }
            ensures { GradientNorm.IsScaledEntry (g ! i) (d ! i) floor result }
        { scaled_entry(g[i], d[i], floor) },
    ))
}

// Without a scale: 0 for an all-zero gradient, else +∞
#[tactic(auto, using(crate::proofs::Norms::infinite), unfolding(crate::specs::GradientNorm::norm_without_scale))]
fn norm_without_scale(all_zero: bool) -> f64
    ensures { result ≡ GradientNorm.norm_without_scale all_zero }
{
    if all_zero { 0.0 } else { f64::INFINITY }
}

// |gᵢ| ÷ √max(dᵢ, floor), at a floor that is not below zero
#[inline(always)]
fn scaled_entry(value: f64, curvature: f64, floor: f64) -> f64
    ensures { GradientNorm.IsScaledEntry value curvature floor result }
{
    numerics::abs(value) / root::sqrt(extrema::max_nonnegative(floor, curvature))
}
