// SPDX-FileCopyrightText: 2026 Pierre Moulon and OpenMVG Rust contributors
// SPDX-License-Identifier: MIT OR Apache-2.0

//! The loss of a view's residual, plain squares: `Loss::L2` of kernel/two_view/schur.rs.

ghost use Rattle.std.specs.Prelude.{◌≡◌};
ghost use Rattle.linearization.specs.Loss as Loss;

use numerics::vectors;

// The length of a residual; the sum begins at −0.
#[inline(always)]
pub(crate) fn norm(residual: [f64; 2]) -> f64
    ensures { result ≡ Loss.norm residual }
{
    root::sqrt(vectors::dot(residual, residual))
}

// The weight of a view's rows: the inverse standard deviation times the root of the loss's weight.
// Plain squares weigh every residual alike, by 1, so that its length is not worked out.
#[inline(always)]
pub(crate) fn row_weight(residual: [f64; 2], inverse_standard_deviation: f64) -> f64
    ensures { result ≡ Loss.row_weight residual inverse_standard_deviation }
{
    inverse_standard_deviation * 1.0
}

// The loss's cost of a weighted residual length
#[inline(always)]
pub(crate) fn loss_cost(residual: f64) -> f64
    ensures { result ≡ Loss.loss_cost residual }
{
    0.5 * residual * residual
}
