// SPDX-FileCopyrightText: 2026 Pierre Moulon and OpenMVG Rust contributors
// SPDX-License-Identifier: MIT OR Apache-2.0

//! Scaled Cholesky factorization of symmetric 3 by 3 point blocks: kernel/point_block.rs. A matrix
//! is nine numbers, row by row; `cholesky` has the arithmetic of the factor, `point_damping` the
//! damping.
//!
//! A factor is inlined where a block is taken in and where a point's step is made, with all that
//! it calls but the root, so that the matrix and its inverse are never copied.
#![tactic(auto)]

mod cholesky;
pub mod point_damping;

ghost use Rattle.std.specs.Prelude.{◌≡◌};
ghost use Rattle.refusal.specs.Outcome.{outcome};
ghost use Rattle.point_block.specs.Condition as Condition;
ghost use Rattle.point_block.specs.Factor as Factor;
ghost use Rattle.point_block.specs.FactorWithRcond as FactorWithRcond;

use numerics::extrema;
use point_damping::ValidDamping;
use refusal::Refusal;

/// The factor of a symmetric 3 by 3 block, kept as the block's inverse
#[derive(Clone, Copy)]
pub struct PointBlockFactor {
    /// The lower triangle of the inverse: the entries 00, 10, 11, 20, 21, 22, none of them tested
    pub inverse: [f64; 6],
}

/// A factor with the reciprocal condition number that goes with it
#[derive(Clone, Copy)]
pub struct ConditionedFactor {
    /// The factor of the damped matrix
    pub factor: PointBlockFactor,
    /// 1 ÷ (norm of the undamped matrix × norm of the inverse), or +0; never below 0, never a NaN
    pub rcond: f64,
}

impl PointBlockFactor {
    /// The factor of the matrix at a damping, with its rcond, which is worked out with the matrix
    /// as it is handed in, undamped. Refuses: row 3, then row 10.
    #[tactic(auto, unfolding(crate::specs::FactorWithRcond::factor_with_rcond))]
    pub fn factor_with_rcond(matrix: [f64; 9], damping: f64) -> Result<ConditionedFactor, Refusal>
        ensures result { result ≡ FactorWithRcond.factor_with_rcond matrix damping }
        ensures outcome { outcome FactorWithRcond.zero_conditioned_factor result
            ≡ outcome FactorWithRcond.zero_conditioned_factor
            (FactorWithRcond.factor_with_rcond matrix damping) }
    {
        let damping = ValidDamping::new(damping)?;
        let factor = Self::new(matrix, damping)?;
        let rcond = factor.reciprocal_condition_number(matrix);
        Ok(ConditionedFactor { factor, rcond })
    }

    /// The factor of the matrix at a damping: the Rust's `PointBlockFactor::new`. Refuses: row 10
    /// where the largest diagonal entry is not positive and finite, or a scaled pivot is not finite
    /// or not above 64ε.
    #[tactic(auto, unfolding(crate::specs::FactorWithRcond::factor))]
    #[inline(always)]
    pub fn new(matrix: [f64; 9], damping: ValidDamping) -> Result<Self, Refusal>
        ensures result { result ≡ FactorWithRcond.factor matrix damping }
        ensures outcome { outcome Factor.zero_factor result
            ≡ outcome Factor.zero_factor (FactorWithRcond.factor matrix damping) }
    {
        Self::factor_damped(point_damping::damped_matrix(matrix, damping)?)
    }

    /// The factor of a matrix that is damped already: the Rust's `factor_damped`. Refuses: row 10
    /// where a scaled pivot is not finite or not above 64ε.
    #[tactic(auto, unfolding(crate::specs::Factor::factor_damped))]
    #[inline(always)]
    pub fn factor_damped(damped: [f64; 9]) -> Result<Self, Refusal>
        ensures result { result ≡ Factor.factor_damped damped }
        ensures outcome { outcome Factor.zero_factor result
            ≡ outcome Factor.zero_factor (Factor.factor_damped damped) }
    {
        let diagonal = point_damping::damping_diagonal_of(damped);
        let inverse = cholesky::invert(damped, diagonal).ok_or(Refusal::NotFactored)?;
        Ok(Self { inverse })
    }

    /// The inverse times a vector: the Rust's `solve`
    #[inline(always)]
    pub fn solve(self, x: [f64; 3]) -> [f64; 3]
        ensures { result ≡ Factor.solve self.inverse x }
    {
        let i = self.inverse;
        let i10 = i[1];
        let i20 = i[3];
        let i21 = i[4];
        let x0 = x[0];
        let x1 = x[1];
        let x2 = x[2];
        [
            i[0] * x0 + i10 * x1 + i20 * x2,
            i10 * x0 + i[2] * x1 + i21 * x2,
            i20 * x0 + i21 * x1 + i[5] * x2,
        ]
    }

    /// The reciprocal condition number in the infinity norm, the Rust's
    /// `reciprocal_condition_number`: 1 ÷ (norm of the matrix × norm of the inverse), or +0 where
    /// that product is not positive and finite
    #[tactic(auto, unfolding(crate::specs::Condition::reciprocal_condition_number))]
    #[inline(always)]
    pub fn reciprocal_condition_number(self, matrix: [f64; 9]) -> f64
        ensures { result ≡ Condition.reciprocal_condition_number self.inverse matrix }
    {
        let denominator = infinity_norm(matrix) * infinity_norm(self.inverse_matrix());
        if numerics::is_positive_finite(denominator) {
            numerics::recip(denominator)
        } else {
            0.0
        }
    }

    // The inverse as nine numbers, column by column: a solve with a unit vector shows ∞ × 0, which
    // the six stored numbers do not.
    #[tactic(auto, unfolding(crate::specs::Condition::inverse_matrix))]
    fn inverse_matrix(self) -> [f64; 9]
        ensures { result ≡ Condition.inverse_matrix self.inverse }
    {
        let x = self.solve([1.0, 0.0, 0.0]);
        let y = self.solve([0.0, 1.0, 0.0]);
        let z = self.solve([0.0, 0.0, 1.0]);
        [x[0], y[0], z[0], x[1], y[1], z[1], x[2], y[2], z[2]]
    }
}

/// Whether a block that factors at damping zero is weak, by its rcond: at or below 192ε
pub fn is_weak(rcond: f64) -> bool
    ensures { result ≡ Condition.is_weak rcond }
{
    rcond <= numerics::POINT_BLOCK_RCOND_THRESHOLD
}

// The largest sum of a row's absolute values; a sum that is a NaN is passed over.
#[tactic(auto, unfolding(crate::specs::Condition::infinity_norm))]
fn infinity_norm(m: [f64; 9]) -> f64
    ensures { result ≡ Condition.infinity_norm m }
{
    extrema::fold_max([
        row_norm(m[0], m[1], m[2]),
        row_norm(m[3], m[4], m[5]),
        row_norm(m[6], m[7], m[8]),
    ])
}

// |x| + |y| + |z|, from −0
fn row_norm(x: f64, y: f64, z: f64) -> f64
    ensures { result ≡ Condition.row_norm x y z }
{
    -0.0 + numerics::abs(x) + numerics::abs(y) + numerics::abs(z)
}
