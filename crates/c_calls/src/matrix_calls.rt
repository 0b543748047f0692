//! The calls of the C interface on matrices, over lent slices: the 3 by 3 point block and the 5 by
//! 5 solve (docs/SPECIFICATION.md, "C interface"). A matrix stands by rows, an inverse is packed as
//! 00, 10, 11, 20, 21, 22. `pixel_step` exports them.

ghost use Rattle.std.specs.Prelude.{◌≡◌};
ghost use Rattle.c_calls.specs.Outcomes as Outcomes;
ghost use Rattle.c_calls.specs.MatrixCalls as Calls;

use crate::{outcomes, slices};
use point_block::point_damping::ValidDamping;
use point_block::{ConditionedFactor, PointBlockFactor, point_damping};

/// What the damping of a point block is multiplied with: its diagonal, raised to a floor.
///
/// - `matrix` (9): by rows
/// - `out` (3)
///
/// Refuses: row 1, then row 10.
/// The formula: `point_block::point_damping::damping_diagonal`.
#[tactic(auto, unfolding(crate::specs::MatrixCalls::damping_diagonal))]
pub fn damping_diagonal(matrix: &[f64], out: &mut [f64]) -> u64
    ensures { Outcomes.HasOutcome result out.new (Calls.damping_diagonal matrix.now out.old) }
{
    if matrix.len() != 9 || out.len() != 3 {
        return outcomes::lengths();
    }
    outcomes::store_result(point_damping::damping_diagonal(slices::whole(matrix)), out)
}

/// A point block with `damping` times its damping diagonal added to its diagonal.
///
/// - `matrix` (9), `out` (9): by rows
///
/// Refuses: row 1, then row 3, then row 10.
/// The formula: `point_block::point_damping::damped_matrix`.
#[tactic(auto, unfolding(crate::specs::MatrixCalls::damped_matrix))]
pub fn damped_matrix(matrix: &[f64], damping: f64, out: &mut [f64]) -> u64
    ensures { Outcomes.HasOutcome result out.new (Calls.damped_matrix matrix.now damping out.old) }
{
    if matrix.len() != 9 || out.len() != 9 {
        return outcomes::lengths();
    }
    let matrix = slices::whole(matrix);
    let damped = ValidDamping::new(damping).and_then(|damping| point_damping::damped_matrix(
        matrix, damping,
    ));
    outcomes::store_result(damped, out)
}

/// The inverse of a matrix that is damped already, by Cholesky's method.
///
/// - `matrix` (9): by rows
/// - `out` (6): the inverse, packed as 00, 10, 11, 20, 21, 22
///
/// Refuses: row 1, then row 10.
/// The formula: `point_block::PointBlockFactor::factor_damped`.
#[tactic(auto, unfolding(crate::specs::MatrixCalls::factor_damped))]
pub fn factor_damped(matrix: &[f64], out: &mut [f64]) -> u64
    ensures { Outcomes.HasOutcome result out.new (Calls.factor_damped matrix.now out.old) }
{
    if matrix.len() != 9 || out.len() != 6 {
        return outcomes::lengths();
    }
    let factor = PointBlockFactor::factor_damped(slices::whole(matrix));
    outcomes::store_result(factor.map(packed_inverse), out)
}

/// The factor with rcond of a point block at a damping: the inverse of the damped block, and the
/// reciprocal condition number by it and the undamped one.
///
/// - `matrix` (9): by rows
/// - `out` (7): packed inverse (6), rcond
///
/// Refuses: row 1, then row 3, then row 10.
/// The formula: `point_block::PointBlockFactor::factor_with_rcond`.
#[tactic(auto, unfolding(crate::specs::MatrixCalls::factor_with_rcond))]
pub fn factor_new(matrix: &[f64], damping: f64, out: &mut [f64]) -> u64
    ensures { Outcomes.HasOutcome result out.new
        (Calls.factor_with_rcond matrix.now damping out.old) }
{
    if matrix.len() != 9 || out.len() != 7 {
        return outcomes::lengths();
    }
    let factor = PointBlockFactor::factor_with_rcond(slices::whole(matrix), damping);
    outcomes::store_result(factor.map(factor_numbers), out)
}

/// A packed inverse times a vector.
///
/// - `inverse` (6): packed
/// - `x` (3), `out` (3)
///
/// Refuses: row 1.
/// The formula: `point_block::PointBlockFactor::solve`.
#[tactic(auto, unfolding(crate::specs::MatrixCalls::factor_solve))]
pub fn factor_solve(inverse: &[f64], x: &[f64], out: &mut [f64]) -> u64
    ensures { Outcomes.HasOutcome result out.new (Calls.factor_solve inverse.now x.now out.old) }
{
    if inverse.len() != 6 || x.len() != 3 || out.len() != 3 {
        return outcomes::lengths();
    }
    let factor = PointBlockFactor {
        inverse: slices::whole(inverse),
    };
    outcomes::store_result(Ok(factor.solve(slices::whole(x))), out)
}

/// The reciprocal condition number of a matrix by its packed inverse, in the infinity norm.
///
/// - `inverse` (6): packed
/// - `matrix` (9): by rows
/// - `out` (1)
///
/// Refuses: row 1.
/// The formula: `point_block::PointBlockFactor::reciprocal_condition_number`.
#[tactic(auto, unfolding(crate::specs::MatrixCalls::reciprocal_condition_number))]
pub fn reciprocal_condition_number(inverse: &[f64], matrix: &[f64], out: &mut [f64]) -> u64
    ensures { Outcomes.HasOutcome result out.new
        (Calls.reciprocal_condition_number inverse.now matrix.now out.old) }
{
    if inverse.len() != 6 || matrix.len() != 9 || out.len() != 1 {
        return outcomes::lengths();
    }
    let factor = PointBlockFactor {
        inverse: slices::whole(inverse),
    };
    let rcond = factor.reciprocal_condition_number(slices::whole(matrix));
    outcomes::store_result(Ok([rcond]), out)
}

/// The solution x of the five equations a · x = b, by Cholesky's method on the lower triangle of a.
///
/// - `a` (25): by rows
/// - `b` (5), `out` (5)
///
/// Refuses: row 1, then row 11.
/// The formula: `solver::solve_positive_definite`.
#[tactic(auto, unfolding(crate::specs::MatrixCalls::solve_positive_definite))]
pub fn solve_positive_definite(a: &[f64], b: &[f64], out: &mut [f64]) -> u64
    ensures { Outcomes.HasOutcome result out.new
        (Calls.solve_positive_definite a.now b.now out.old) }
{
    if a.len() != 25 || b.len() != 5 || out.len() != 5 {
        return outcomes::lengths();
    }
    let x = solver::solve_positive_definite(slices::whole(a), slices::whole(b));
    outcomes::store_result(x, out)
}

// The six stored numbers of a factor: a function, since `map` of a closure hides its contract
fn packed_inverse(factor: PointBlockFactor) -> [f64; 6]
    ensures { result ≡ factor.inverse }
{
    factor.inverse
}

// The packed inverse, then rcond
fn factor_numbers(f: ConditionedFactor) -> [f64; 7]
    ensures { result ≡ Calls.factor_numbers f }
{
    let i = f.factor.inverse;
    [i[0], i[1], i[2], i[3], i[4], i[5], f.rcond]
}
