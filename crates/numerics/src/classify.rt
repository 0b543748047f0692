//! The absolute value, the reciprocal, and the tests for a finite value and for a finite one above
//! 0.

ghost use Rattle.std.specs.Prelude.{◌≡◌};
ghost use Rattle.std.specs.Float.{float_is_finite};
ghost use Rattle.numerics.specs.Binary64 as Binary64;
ghost use Rattle.numerics.specs.Classify as Classify;

/// |x|, `f64::abs`: the sign is cleared, of a zero too, and a NaN stays.
#[tactic(auto, using(crate::proofs::AbsLaws::abs_above, crate::proofs::AbsLaws::abs_rest))]
pub fn abs(x: f64) -> f64
    ensures { result ≡ Classify.abs x }
{
    // The difference from 0 gives +0 for either zero, where a change of sign would turn +0 into
    // −0. The library's own takes two comparisons.
    if 0.0 < x { x } else { 0.0 - x }
}

/// Whether x is neither a NaN nor an infinity, `f64::is_finite`.
pub fn is_finite(x: f64) -> bool
    ensures { result ≡ float_is_finite x }
{
    x.is_finite()
}

/// Whether 0 < x < ∞.
pub fn is_positive_finite(x: f64) -> bool
    ensures { result ≡ Classify.is_positive_finite x }
{
    is_finite(x) & (0.0 < x)
}

/// 1 ÷ x, `f64::recip`.
pub fn recip(x: f64) -> f64
    ensures { result ≡ Binary64.recip x }
{
    x.recip()
}
