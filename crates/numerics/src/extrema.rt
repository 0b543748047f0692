//! `f64::max` and `f64::min`, with a rule for unlike zeros, and the largest of a list
//! (docs/SPECIFICATION.md, "Numbers").

ghost use Rattle.std.specs.Prelude.{◌≡◌};
ghost use Rattle.numerics.specs.Extrema as Extrema;

/// The larger of x and y, `f64::max`. A NaN is passed over where the other is a number. Of +0 and
/// −0 it is +0, in either order, which the Rust leaves open.
#[tactic(auto, using(crate::proofs::ExtremaLaws::maximum_is), unfolding(crate::specs::Extrema::max))]
pub fn max(x: f64, y: f64) -> f64
    ensures result { result ≡ Extrema.max x y }
    ensures standard { Extrema.IsMaximum x y result }
{
    if y < x || y.is_nan() || (x == y && x.is_sign_positive()) {
        x
    } else {
        y
    }
}

/// The smaller of x and y, `f64::min`. A NaN is passed over where the other is a number. Of +0 and
/// −0 it is −0, in either order, which the Rust leaves open.
#[tactic(auto, using(crate::proofs::ExtremaLaws::minimum_is), unfolding(crate::specs::Extrema::min))]
pub fn min(x: f64, y: f64) -> f64
    ensures result { result ≡ Extrema.min x y }
    ensures standard { Extrema.IsMinimum x y result }
{
    if x < y || y.is_nan() || (x == y && x.is_sign_negative()) {
        x
    } else {
        y
    }
}

/// x where x > low, and low elsewhere: one comparison. Where low is a number with the sign clear
/// this is `max` of the two: a NaN in x is passed over, and of unlike zeros it is +0.
pub fn max_nonnegative(low: f64, x: f64) -> f64
    ensures { Extrema.IsMaxNonnegative low x result }
{
    if low < x { x } else { low }
}

/// The largest of N numbers and +0, `.fold(0.0, f64::max)`: never below +0 and never NaN, since a
/// NaN is passed over.
pub fn fold_max<const N: usize>(xs: [f64; N]) -> f64
    ensures { result ≡ Extrema.fold_max xs.entry }
{
    xs.iter().fold(0.0, |low, x| max_nonnegative(low, *x))
}
