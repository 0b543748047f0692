//! Lent slices as small arrays, and values copied into one.

ghost use Rattle.std.specs.Prelude.{◌≡◌, ◌+◌, ◌≤◌, length};
ghost use Rattle.c_calls.specs.Slices as Slices;

use std::array;

// Copies the values into `out` from `start` on.
pub(crate) fn copy(values: &[f64], start: usize, out: &mut [f64])
    requires { start + length values.now ≤ length out.old }
    ensures { out.new ≡ Slices.put values.now start out.old }
{
    out[start..start + values.len()].copy_from_slice(values);
}

// All N numbers of x
pub(crate) fn whole<const N: usize>(x: &[f64]) -> [f64; N]
    requires { length x.now ≡ N }
    ensures { result ≡ x.now }
{
    let mut numbers = [0.0; N];
    numbers.copy_from_slice(x);
    numbers
}

// N numbers of x, from `start` on
pub(crate) fn part<const N: usize>(x: &[f64], start: usize) -> [f64; N]
    requires { start + N ≤ length x.now }
    ensures { result ≡ Slices.part start N x.now }
{
    array::from_fn(|i| x[start + i])
}
