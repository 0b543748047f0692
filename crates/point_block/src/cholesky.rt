// SPDX-FileCopyrightText: 2026 Pierre Moulon and OpenMVG Rust contributors
// SPDX-License-Identifier: MIT OR Apache-2.0

//! The scaled Cholesky factor of a symmetric 3 by 3 block: the arithmetic of `factor_damped` of
//! kernel/point_block.rs. A matrix is nine numbers, row by row.

ghost use Rattle.std.specs.Prelude.{◌≡◌};
ghost use Rattle.point_block.specs.Cholesky as Cholesky;

// The Jacobi scale: the roots of the three entries of a diagonal
#[derive(Clone, Copy)]
struct Scale {
    s0: f64,
    s1: f64,
    s2: f64,
}

// A lower triangle: `e21` is the entry of row 2 and column 1.
#[derive(Clone, Copy)]
struct Lower {
    e00: f64,
    e10: f64,
    e11: f64,
    e20: f64,
    e21: f64,
    e22: f64,
}

// The lower triangle L of the scaled matrix L Lᵀ, and its pivots, which are the squares of L's
// diagonal before their roots are taken
#[derive(Clone, Copy)]
struct Factor {
    p0: f64,
    p1: f64,
    p2: f64,
    lower: Lower,
}

// The inverse of m by its Cholesky factor at the scale of the roots of d, packed: 00, 10, 11, 20,
// 21, 22. None where a pivot is not valid.
#[tactic(auto, unfolding(crate::specs::Cholesky::invert, crate::specs::Cholesky::inverse_by))]
#[inline(always)]
pub(crate) fn invert(m: [f64; 9], d: [f64; 3]) -> Option<[f64; 6]>
    ensures { result ≡ Cholesky.invert m d }
{
    let scale = scale_of(d);
    let factor = cholesky_of(scaled_lower(m, scale));
    if !has_valid_pivots(factor) {
        return None;
    }
    Some(inverse_of(factor.lower, scale))
}

#[tactic(auto, unfolding(crate::specs::Cholesky::scale_of))]
fn scale_of(d: [f64; 3]) -> Scale
    ensures { result ≡ Cholesky.scale_of d }
{
    Scale {
        s0: root::sqrt(d[0]),
        s1: root::sqrt(d[1]),
        s2: root::sqrt(d[2]),
    }
}

// The lower triangle of the scaled matrix. It is made symmetric: an entry is the mean of the two
// that mirror each other.
fn scaled_lower(m: [f64; 9], s: Scale) -> Lower
    ensures { result ≡ Cholesky.scaled_lower m s }
{
    Lower {
        e00: 0.5 * (m[0] + m[0]) / (s.s0 * s.s0),
        e10: 0.5 * (m[3] + m[1]) / (s.s1 * s.s0),
        e11: 0.5 * (m[4] + m[4]) / (s.s1 * s.s1),
        e20: 0.5 * (m[6] + m[2]) / (s.s2 * s.s0),
        e21: 0.5 * (m[7] + m[5]) / (s.s2 * s.s1),
        e22: 0.5 * (m[8] + m[8]) / (s.s2 * s.s2),
    }
}

// The factor of a scaled matrix: where a pivot is not valid the entries after it are worked out all
// the same, and are not used.
#[tactic(auto, unfolding(crate::specs::Cholesky::cholesky_of))]
fn cholesky_of(a: Lower) -> Factor
    ensures { result ≡ Cholesky.cholesky_of a }
{
    let p0 = a.e00;
    let l00 = root::sqrt(p0);
    let l10 = a.e10 / l00;
    let p1 = a.e11 - l10 * l10;
    let l11 = root::sqrt(p1);
    let l20 = a.e20 / l00;
    let l21 = (a.e21 - l20 * l10) / l11;
    let p2 = a.e22 - l20 * l20 - l21 * l21;
    let l22 = root::sqrt(p2);
    Factor {
        p0,
        p1,
        p2,
        lower: Lower {
            e00: l00,
            e10: l10,
            e11: l11,
            e20: l20,
            e21: l21,
            e22: l22,
        },
    }
}

// Finite and above 64ε
fn is_valid_pivot(p: f64) -> bool
    ensures { result ≡ Cholesky.is_valid_pivot p }
{
    numerics::is_finite(p) & (numerics::RELATIVE_TOLERANCE < p)
}

#[tactic(auto, unfolding(crate::specs::Cholesky::has_valid_pivots))]
fn has_valid_pivots(c: Factor) -> bool
    ensures { result ≡ Cholesky.has_valid_pivots c }
{
    is_valid_pivot(c.p0) & is_valid_pivot(c.p1) & is_valid_pivot(c.p2)
}

// The block's inverse D (Mᵀ M) D: M is the inverse of the lower triangle, and D has the reciprocals
// of the scale on its diagonal.
#[tactic(auto, unfolding(crate::specs::Cholesky::inverse_of))]
fn inverse_of(l: Lower, s: Scale) -> [f64; 6]
    ensures { result ≡ Cholesky.inverse_of l s }
{
    let m00 = numerics::recip(l.e00);
    let m11 = numerics::recip(l.e11);
    let m22 = numerics::recip(l.e22);
    let m10 = -l.e10 * m00 * m11;
    let m21 = -l.e21 * m11 * m22;
    let m20 = -(l.e20 * m00 + l.e21 * m10) * m22;
    let d0 = numerics::recip(s.s0);
    let d1 = numerics::recip(s.s1);
    let d2 = numerics::recip(s.s2);
    [
        (m00 * m00 + m10 * m10 + m20 * m20) * (d0 * d0),
        (m11 * m10 + m21 * m20) * (d1 * d0),
        (m11 * m11 + m21 * m21) * (d1 * d1),
        m22 * m20 * (d2 * d0),
        m22 * m21 * (d2 * d1),
        m22 * m22 * (d2 * d2),
    ]
}
