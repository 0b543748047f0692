//! The block of one point, and the point's step. A block is 59 numbers.

ghost use Rattle.c_calls.specs.Outcomes as Outcomes;
ghost use Rattle.c_calls.specs.PointCalls as Calls;

use c_calls::block_calls;

/// The block of a correspondence: its part of the normal equations, from both views.
///
/// - `rig` (29): camera 1 (5), camera 2 (5), rotation by rows (9), translation (3), translation
///   basis (two vectors of 3), baseline
/// - `correspondence` (8): point (3), view 1 (2), view 2 (2), inverse standard deviation
/// - `out` (59): pose Hessian (25), cross Hessian (15), point Hessian (9), pose gradient (5), point
///   gradient (3), cost, squared residual
///
/// Refuses: row 1, then row 4, then row 9 with view 1 or 2.
/// The formula: `c_calls::block_calls::linearize_point`.
#[unsafe(no_mangle)]
pub extern "C" fn pixel_step_linearize_point(
    rig: &[f64],
    correspondence: &[f64],
    out: &mut [f64],
) -> u64
    ensures { Outcomes.HasOutcome result out.new
        (Calls.linearize_point rig.now correspondence.now out.old) }
{
    block_calls::linearize_point(rig, correspondence, out)
}

/// The step of a point that goes with a step of the pose, in units of the baseline, and its
/// damping norm.
///
/// - `block` (59): laid out as by `pixel_step_linearize_point`
/// - `pose_step` (5): rotation (3), translation (2)
/// - `out` (4): step (3), damping norm
///
/// Refuses: row 1, then row 3, then row 10.
/// The formula: `c_calls::block_calls::point_step_with_damping_norm`.
#[unsafe(no_mangle)]
pub extern "C" fn pixel_step_point_step_with_damping_norm(
    block: &[f64],
    damping: f64,
    pose_step: &[f64],
    out: &mut [f64],
) -> u64
    ensures { Outcomes.HasOutcome result out.new
        (Calls.point_step block.now damping pose_step.now out.old) }
{
    block_calls::point_step_with_damping_norm(block, damping, pose_step, out)
}
