//! What is asked of a list of numbers: whether all are finite, and the sum of its products with
//! another list.

ghost use Rattle.std.specs.Prelude.{◌≡◌};
ghost use Rattle.numerics.specs.Vectors as Vectors;

/// Whether every entry is finite, `.iter().all(|x| x.is_finite())`.
// By one product from +0, with a multiplication for each entry and one comparison in all: 0 times
// a finite number is a zero, and 0 times any other is a NaN, which stays. Always inlined, so that
// the loop over an array's few entries is unrolled.
#[inline(always)]
pub fn all_finite(values: &[f64]) -> bool
    ensures { result ≡ Vectors.all_finite values.now }
{
    values.iter().fold(0.0, |product, x| product * *x) == 0.0
}

/// x₀·y₀ + x₁·y₁ + .. of N entries, `.sum()` of the products: they are added one by one from −0.
#[tactic(auto, using(crate::proofs::Products::dot_next))]
pub fn dot<const N: usize>(x: [f64; N], y: [f64; N]) -> f64
    ensures { result ≡ Vectors.dot N x.entry y.entry }
{
    // a loop, since the prover has no law of a `fold` over the indexes of two arrays
    let mut sum = -0.0;
    for i in 0..N {
        sum += x[i] * y[i];
    }
    sum
}
