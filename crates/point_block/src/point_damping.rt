// SPDX-FileCopyrightText: 2026 Pierre Moulon and OpenMVG Rust contributors
// SPDX-License-Identifier: MIT OR Apache-2.0

//! The damping of a symmetric 3 by 3 point block: `damping_diagonal` and `damped_matrix` of
//! kernel/point_block.rs, and a damping that row 3 lets through. A matrix is nine numbers, row by
//! row.

ghost use Rattle.std.specs.Prelude.{◌≡◌, IsTrue};
ghost use Rattle.numerics.specs.Vectors.{zeros};
ghost use Rattle.refusal.specs.Outcome.{outcome};
ghost use Rattle.point_block.specs.Damping as Damping;

use numerics::extrema;
use refusal::Refusal;
use std::marker::Model;

/// A damping that row 3 lets through: finite and not below 0. It has no unit, since it scales the
/// diagonal that it is added to.
#[derive(Clone, Copy)]
pub struct ValidDamping {
    value: f64,
}

impl Model for ValidDamping {
    ghost use Rattle.std.specs.Prelude.{IsTrue, Float};
    ghost use Rattle.point_block.specs.Damping.{is_valid_damping};

    ghost Value = { Float };

    ghost view = { λ d. d.value };

    ghost invariant = { λ d. IsTrue (is_valid_damping d.value) };

    ghost inverse = { λ x. record { value = x } };
}

impl ValidDamping {
    /// The damping as one that is valid. Refuses: row 3.
    pub fn new(damping: f64) -> Result<Self, Refusal>
        ensures { result ≡ Damping.valid_damping damping }
    {
        if is_valid_damping(damping) {
            Ok(Self { value: damping })
        } else {
            Err(Refusal::Damping)
        }
    }

    /// The number itself
    pub fn value(self) -> f64
        ensures value { result ≡ self }
        ensures valid { IsTrue (Damping.is_valid_damping result) }
    {
        self.value
    }

    /// Whether it is a zero of either sign
    pub fn is_zero(self) -> bool
        ensures { result ≡ Damping.is_zero self }
    {
        self.value == 0.0
    }
}

#[tactic(auto, unfolding(crate::specs::Damping::is_valid_damping))]
fn is_valid_damping(damping: f64) -> bool
    ensures { result ≡ Damping.is_valid_damping damping }
{
    numerics::is_finite(damping) & !(damping < 0.0)
}

/// The matrix with damping · dᵢ added to its entry at (i, i), where d is its damping diagonal: the
/// Rust's `damped_matrix`. Refuses: row 10 where there is no damping diagonal.
#[tactic(auto, unfolding(crate::specs::Damping::damped_matrix))]
pub fn damped_matrix(matrix: [f64; 9], damping: ValidDamping) -> Result<[f64; 9], Refusal>
    ensures result { result ≡ Damping.damped_matrix matrix damping }
    ensures outcome { outcome (zeros 9) result
        ≡ outcome (zeros 9) (Damping.damped_matrix matrix damping) }
{
    let diagonal = damping_diagonal(matrix)?;
    Ok(with_added_diagonal(matrix, damping.value(), diagonal))
}

/// The diagonal that damping is multiplied with: dᵢ is the diagonal entry, but no less than 64ε of
/// the largest. The Rust's `damping_diagonal`. Refuses: row 10 where the largest diagonal entry is
/// not positive and finite.
#[tactic(auto, unfolding(crate::specs::Damping::damping_diagonal))]
pub fn damping_diagonal(matrix: [f64; 9]) -> Result<[f64; 3], Refusal>
    ensures result { result ≡ Damping.damping_diagonal matrix }
    ensures outcome { outcome (zeros 3) result
        ≡ outcome (zeros 3) (Damping.damping_diagonal matrix) }
{
    let scale = largest_diagonal(matrix);
    if !numerics::is_positive_finite(scale) {
        return Err(Refusal::NotFactored);
    }
    Ok(damping_diagonal_at(matrix, scale))
}

/// `damping_diagonal` with no test of the largest entry: a NaN gives way to the floor. Its roots
/// are the Jacobi scale of a factor.
pub fn damping_diagonal_of(m: [f64; 9]) -> [f64; 3]
    ensures { result ≡ Damping.damping_diagonal_of m }
{
    damping_diagonal_at(m, largest_diagonal(m))
}

// The largest of +0 and the diagonal
#[tactic(auto, unfolding(crate::specs::Damping::largest_diagonal))]
fn largest_diagonal(m: [f64; 9]) -> f64
    ensures { result ≡ Damping.largest_diagonal m }
{
    extrema::fold_max([m[0], m[4], m[8]])
}

// The damping diagonal, from the largest diagonal entry, which is `scale`. The floor is not below 0
// and not a NaN, so that `max_nonnegative` serves as `max`.
fn damping_diagonal_at(m: [f64; 9], scale: f64) -> [f64; 3]
    requires { scale ≡ Damping.largest_diagonal m }
    ensures { result ≡ Damping.damping_diagonal_of m }
{
    let floor = numerics::RELATIVE_TOLERANCE * scale;
    [
        extrema::max_nonnegative(floor, m[0]),
        extrema::max_nonnegative(floor, m[4]),
        extrema::max_nonnegative(floor, m[8]),
    ]
}

// m with damping · dᵢ added to its entry at (i, i)
#[tactic(auto, unfolding(crate::specs::Damping::with_added_diagonal))]
#[rattlefmt::skip]
fn with_added_diagonal(m: [f64; 9], damping: f64, d: [f64; 3]) -> [f64; 9]
    ensures { result ≡ Damping.with_added_diagonal m damping d }
{
    [
        m[0] + damping * d[0], m[1], m[2],
        m[3], m[4] + damping * d[1], m[5],
        m[6], m[7], m[8] + damping * d[2],
    ]
}
