//! The 3 by 3 point block. A matrix is 9 numbers by rows; an inverse is 6, packed as 00, 10, 11,
//! 20, 21, 22.

ghost use Rattle.c_calls.specs.Outcomes as Outcomes;
ghost use Rattle.c_calls.specs.MatrixCalls as Calls;

use c_calls::matrix_calls;

/// What the damping of a point block is multiplied with: its diagonal, raised to a floor.
///
/// - `matrix` (9): by rows
/// - `out` (3)
///
/// Refuses: row 1, then row 10.
/// The formula: `c_calls::matrix_calls::damping_diagonal`.
#[unsafe(no_mangle)]
pub extern "C" fn pixel_step_damping_diagonal(matrix: &[f64], out: &mut [f64]) -> u64
    ensures { Outcomes.HasOutcome result out.new (Calls.damping_diagonal matrix.now out.old) }
{
    matrix_calls::damping_diagonal(matrix, out)
}

/// A point block with `damping` times its damping diagonal added to its diagonal.
///
/// - `matrix` (9), `out` (9): by rows
///
/// Refuses: row 1, then row 3, then row 10.
/// The formula: `c_calls::matrix_calls::damped_matrix`.
#[unsafe(no_mangle)]
pub extern "C" fn pixel_step_damped_matrix(matrix: &[f64], damping: f64, out: &mut [f64]) -> u64
    ensures { Outcomes.HasOutcome result out.new (Calls.damped_matrix matrix.now damping out.old) }
{
    matrix_calls::damped_matrix(matrix, damping, out)
}

/// The inverse of a matrix that is damped already, by Cholesky's method.
///
/// - `matrix` (9): by rows
/// - `out` (6): the inverse, packed as 00, 10, 11, 20, 21, 22
///
/// Refuses: row 1, then row 10.
/// The formula: `c_calls::matrix_calls::factor_damped`.
#[unsafe(no_mangle)]
pub extern "C" fn pixel_step_factor_damped(matrix: &[f64], out: &mut [f64]) -> u64
    ensures { Outcomes.HasOutcome result out.new (Calls.factor_damped matrix.now out.old) }
{
    matrix_calls::factor_damped(matrix, out)
}

/// The factor with rcond of a point block at a damping: the inverse of the damped block, and the
/// reciprocal condition number by it and the undamped one.
///
/// - `matrix` (9): by rows
/// - `out` (7): packed inverse (6), rcond
///
/// Refuses: row 1, then row 3, then row 10.
/// The formula: `c_calls::matrix_calls::factor_new`.
#[unsafe(no_mangle)]
pub extern "C" fn pixel_step_factor_new(matrix: &[f64], damping: f64, out: &mut [f64]) -> u64
    ensures { Outcomes.HasOutcome result out.new
        (Calls.factor_with_rcond matrix.now damping out.old) }
{
    matrix_calls::factor_new(matrix, damping, out)
}

/// A packed inverse times a vector.
///
/// - `inverse` (6): packed
/// - `x` (3), `out` (3)
///
/// Refuses: row 1.
/// The formula: `c_calls::matrix_calls::factor_solve`.
#[unsafe(no_mangle)]
pub extern "C" fn pixel_step_factor_solve(inverse: &[f64], x: &[f64], out: &mut [f64]) -> u64
    ensures { Outcomes.HasOutcome result out.new (Calls.factor_solve inverse.now x.now out.old) }
{
    matrix_calls::factor_solve(inverse, x, out)
}

/// The reciprocal condition number of a matrix by its packed inverse, in the infinity norm.
///
/// - `inverse` (6): packed
/// - `matrix` (9): by rows
/// - `out` (1)
///
/// Refuses: row 1.
/// The formula: `c_calls::matrix_calls::reciprocal_condition_number`.
#[unsafe(no_mangle)]
pub extern "C" fn pixel_step_reciprocal_condition_number(
    inverse: &[f64],
    matrix: &[f64],
    out: &mut [f64],
) -> u64
    ensures { Outcomes.HasOutcome result out.new
        (Calls.reciprocal_condition_number inverse.now matrix.now out.old) }
{
    matrix_calls::reciprocal_condition_number(inverse, matrix, out)
}
