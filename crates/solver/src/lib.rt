// SPDX-FileCopyrightText: 2026 Pierre Moulon and OpenMVG Rust contributors
// SPDX-License-Identifier: MIT OR Apache-2.0

//! The solution of five equations by Cholesky's method: `solve_positive_definite` of
//! numerics/refine/solver.rs, at 5 unknowns. The matrix is 25 numbers, row by row.
#![tactic(auto)]

ghost use Rattle.std.specs.Prelude.{◌≡◌, ◌<◌, ◌≤◌, ◌-◌};
ghost use Rattle.refusal.specs.Outcome.{outcome};
ghost use Rattle.solver.specs.Solver as Solver;
ghost use Rattle.solver.specs.Solver.{zero_solution};

use numerics::vectors;
use refusal::Refusal;

// The lower triangle L, row by row, and beside each entry the sum that it was made from. What lies
// right of the diagonal is +0.
#[derive(Clone, Copy)]
struct Lower {
    sums: [f64; 25],
    entries: [f64; 25],
}

/// The solution x of `a x = b`. Refuses: row 11 where an entry of `a`, of `b` or of x or a sum of
/// the factorization is not finite, or a pivot is not above 0.
#[tactic(auto, unfolding(crate::specs::Solver::solve_positive_definite))]
pub fn solve_positive_definite(a: [f64; 25], b: [f64; 5]) -> Result<[f64; 5], Refusal>
    ensures result { result ≡ Solver.solve_positive_definite a b }
    ensures outcome { outcome zero_solution result
        ≡ outcome zero_solution (Solver.solve_positive_definite a b) }
{
    let lower = lower_of(a);
    let x = solution(&lower.entries, b);
    let solved = vectors::all_finite(&a)
        & vectors::all_finite(&b)
        & has_valid_sums(lower.sums)
        & vectors::all_finite(&x);
    if solved {
        Ok(x)
    } else {
        Err(Refusal::NotSolved)
    }
}

// Row by row: each entry needs those before it.
#[tactic(auto, unfolding(crate::specs::Solver::lower_of))]
fn lower_of(a: [f64; 25]) -> Lower
    ensures { result ≡ Solver.lower_of a }
{
    let zero = Lower {
        sums: [0.0; 25],
        entries: [0.0; 25],
    };
    (0..5).fold(zero, |l, i| with_row(&a, l, i))
}

#[tactic(auto, unfolding(crate::specs::Solver::with_row))]
fn with_row(a: &[f64; 25], l: Lower, i: usize) -> Lower
    requires { i < 5 }
    ensures { result ≡ Solver.with_row a.now l i }
{
    (0..i + 1).fold(l, |l, j| with_entry(a, i, l, j))
}

#[tactic(auto, unfolding(crate::specs::Solver::with_entry))]
fn with_entry(a: &[f64; 25], i: usize, mut l: Lower, j: usize) -> Lower
    requires row { i < 5 }
    requires entry { j ≤ i }
    ensures { result ≡ Solver.with_entry a.now i l j }
{
    let k = 5 * i + j;
    let sum = a[k] - products(&l.entries, i, j);
    l.sums[k] = sum;
    l.entries[k] = if i == j {
        root::sqrt(sum)
    } else {
        sum / l.entries[6 * j]
    };
    l
}

// The products of the first j entries of the rows i and j, summed from −0
#[tactic(auto, unfolding(crate::specs::Solver::products))]
fn products(l: &[f64; 25], i: usize, j: usize) -> f64
    requires row { i < 5 }
    requires entry { j ≤ i }
    ensures { result ≡ Solver.products l.now i j }
{
    (0..j).fold(-0.0, |sum, k| sum + l[5 * i + k] * l[5 * j + k])
}

// Whether every sum is finite and every pivot is above 0
#[tactic(auto, unfolding(crate::specs::Solver::has_valid_sums))]
fn has_valid_sums(sums: [f64; 25]) -> bool
    ensures { result ≡ Solver.has_valid_sums sums }
{
    vectors::all_finite(&sums)
        & !(sums[0] <= 0.0)
        & !(sums[6] <= 0.0)
        & !(sums[12] <= 0.0)
        & !(sums[18] <= 0.0)
        & !(sums[24] <= 0.0)
}

#[tactic(auto, unfolding(crate::specs::Solver::solution))]
fn solution(l: &[f64; 25], b: [f64; 5]) -> [f64; 5]
    ensures { result ≡ Solver.solution l.now b }
{
    backward(l, forward(l, b))
}

// y of L y = b, from its first entry on
#[tactic(auto, unfolding(crate::specs::Solver::forward))]
fn forward(l: &[f64; 25], b: [f64; 5]) -> [f64; 5]
    ensures { result ≡ Solver.forward l.now b }
{
    (0..5).fold(
        [0.0; 5],
        |y, i|
            requires { i < 5 }
            ensures { result ≡ Solver.with_forward_entry l.entry.now b y i }
        { with_forward_entry(l, b, y, i) },
    )
}

#[tactic(auto, unfolding(crate::specs::Solver::with_forward_entry))]
fn with_forward_entry(l: &[f64; 25], b: [f64; 5], mut y: [f64; 5], i: usize) -> [f64; 5]
    requires { i < 5 }
    ensures { result ≡ Solver.with_forward_entry l.now b y i }
{
    y[i] = forward_sum(l, b, y, i) / l[6 * i];
    y
}

// Entry i of b less the products with the entries of y before it
#[tactic(auto, unfolding(crate::specs::Solver::forward_sum))]
fn forward_sum(l: &[f64; 25], b: [f64; 5], y: [f64; 5], i: usize) -> f64
    requires { i < 5 }
    ensures { result ≡ Solver.forward_sum l.now b y i }
{
    (0..i).fold(b[i], |sum, j| sum - l[5 * i + j] * y[j])
}

// x of Lᵀ x = y, from its last entry back
#[tactic(auto, unfolding(crate::specs::Solver::backward))]
fn backward(l: &[f64; 25], y: [f64; 5]) -> [f64; 5]
    ensures { result ≡ Solver.backward l.now y }
{
    (0..5).fold(
        [0.0; 5],
        |x, k|
            requires { k < 5 }
            ensures { result ≡ Solver.with_backward_entry l.entry.now y x (4 - k) }
        { with_backward_entry(l, y, x, 4 - k) },
    )
}

#[tactic(auto, unfolding(crate::specs::Solver::with_backward_entry))]
fn with_backward_entry(l: &[f64; 25], y: [f64; 5], mut x: [f64; 5], i: usize) -> [f64; 5]
    requires { i < 5 }
    ensures { result ≡ Solver.with_backward_entry l.now y x i }
{
    x[i] = backward_sum(l, y, x, i) / l[6 * i];
    x
}

// Entry i of y less the products with the entries of x behind it
#[tactic(auto, unfolding(crate::specs::Solver::backward_sum))]
fn backward_sum(l: &[f64; 25], y: [f64; 5], x: [f64; 5], i: usize) -> f64
    requires { i < 5 }
    ensures { result ≡ Solver.backward_sum l.now y x i }
{
    (i + 1..5).fold(y[i], |sum, j| sum - l[5 * j + i] * x[j])
}
