//! The reduced system: 45 numbers, and beside them the weak point count, the block count and the
//! flag.

ghost use Rattle.c_calls.specs.Outcomes as Outcomes;
ghost use Rattle.c_calls.specs.SystemCalls as Calls;

use c_calls::system_calls;

/// A new system, written into lent memory.
///
/// - `system` (45): Hessian (25), gradient (5), cost, squared residual, full pose gradient (5),
///   pose diagonal (5), point model reduction, scaled point gradient norm, minimum rcond
/// - `counts` (3): weak point count, block count, flag
///
/// Refuses: row 1.
/// The formula: `c_calls::system_calls::system_new`.
#[unsafe(no_mangle)]
pub extern "C" fn pixel_step_system_new(system: &mut [f64], counts: &mut [u16]) -> u64
    ensures { Calls.HasSystemOutcome result system.new counts.new
        (Calls.new_system system.old counts.old) }
{
    system_calls::system_new(system, counts)
}

/// The lent system takes in a block at a damping: the Schur complement of its point.
///
/// - `system` (45), `counts` (3): laid out as by `pixel_step_system_new`
/// - `block` (59): laid out as by `pixel_step_linearize_point`
///
/// Refuses: row 1, then row 3, then row 12, then row 13.
/// The formula: `c_calls::system_calls::system_add`.
#[unsafe(no_mangle)]
pub extern "C" fn pixel_step_system_add(
    system: &mut [f64],
    counts: &mut [u16],
    block: &[f64],
    damping: f64,
) -> u64
    ensures { Calls.HasSystemOutcome result system.new counts.new
        (Calls.add system.old counts.old block.now damping) }
{
    system_calls::system_add(system, counts, block, damping)
}

/// The lent system with the damping added to the diagonal of its Hessian.
///
/// - `system` (45), `counts` (3): laid out as by `pixel_step_system_new`
///
/// Refuses: row 1, then row 3.
/// The formula: `c_calls::system_calls::system_finish_damping`.
#[unsafe(no_mangle)]
pub extern "C" fn pixel_step_system_finish_damping(
    system: &mut [f64],
    counts: &mut [u16],
    damping: f64,
) -> u64
    ensures { Calls.HasSystemOutcome result system.new counts.new
        (Calls.finish_damping system.old counts.old damping) }
{
    system_calls::system_finish_damping(system, counts, damping)
}

/// Whether the flag is true, and gradient and Hessian are finite.
///
/// - `system` (45), `counts` (3): laid out as by `pixel_step_system_new`
/// - `out` (1): 1 or 0
///
/// Refuses: row 1.
/// The formula: `c_calls::system_calls::system_is_valid`.
#[unsafe(no_mangle)]
pub extern "C" fn pixel_step_system_is_valid(system: &[f64], counts: &[u16], out: &mut [u16]) -> u64
    ensures { Outcomes.HasOutcome result out.new
        (Calls.is_valid system.now counts.now out.old) }
{
    system_calls::system_is_valid(system, counts, out)
}

/// The largest scaled gradient entry, of the points and of the pose.
///
/// - `system` (45), `counts` (3): laid out as by `pixel_step_system_new`
/// - `out` (1)
///
/// Refuses: row 1.
/// The formula: `c_calls::system_calls::system_scaled_gradient_inf_norm`.
#[unsafe(no_mangle)]
pub extern "C" fn pixel_step_system_scaled_gradient_inf_norm(
    system: &[f64],
    counts: &[u16],
    out: &mut [f64],
) -> u64
    ensures { Outcomes.HasOutcome result out.new
        (Calls.gradient_inf_norm system.now counts.now out.old) }
{
    system_calls::system_scaled_gradient_inf_norm(system, counts, out)
}

/// The reduction of the cost that the quadratic model predicts for a step of the pose.
///
/// - `system` (45), `counts` (3): laid out as by `pixel_step_system_new`
/// - `step` (5): rotation (3), translation (2)
/// - `out` (1)
///
/// Refuses: row 1, then row 3.
/// The formula: `c_calls::system_calls::system_predicted_reduction`.
#[unsafe(no_mangle)]
pub extern "C" fn pixel_step_system_predicted_reduction(
    system: &[f64],
    counts: &[u16],
    step: &[f64],
    damping: f64,
    point_damping_norm: f64,
    out: &mut [f64],
) -> u64
    ensures { Outcomes.HasOutcome result out.new
        (Calls.predicted_reduction system.now counts.now step.now damping point_damping_norm
        out.old) }
{
    system_calls::system_predicted_reduction(system, counts, step, damping, point_damping_norm, out)
}
