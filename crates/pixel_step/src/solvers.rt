//! The 5 by 5 solve.

ghost use Rattle.c_calls.specs.Outcomes as Outcomes;
ghost use Rattle.c_calls.specs.MatrixCalls as Calls;

use c_calls::matrix_calls;

/// The solution x of the five equations a · x = b, by Cholesky's method on the lower triangle of a.
///
/// - `a` (25): by rows
/// - `b` (5), `out` (5)
///
/// Refuses: row 1, then row 11.
/// The formula: `c_calls::matrix_calls::solve_positive_definite`.
#[unsafe(no_mangle)]
pub extern "C" fn pixel_step_solve_positive_definite(a: &[f64], b: &[f64], out: &mut [f64]) -> u64
    ensures { Outcomes.HasOutcome result out.new
        (Calls.solve_positive_definite a.now b.now out.old) }
{
    matrix_calls::solve_positive_definite(a, b, out)
}
