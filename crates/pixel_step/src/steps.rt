//! One whole step of the two-view problem, and the limit of the pose step.

ghost use Rattle.problem.specs.Problem as Problem;
ghost use Rattle.c_calls.specs.Outcomes as Outcomes;
ghost use Rattle.c_calls.specs.Layout as Layout;
ghost use Rattle.c_calls.specs.StepCalls as Calls;

use c_calls::step_calls;

/// One whole step of n points: the step of the pose, limited, and the step of each point.
///
/// - `points` (3n): x, y, z of each point, in the frame of camera 1
/// - `view1`, `view2` (2n): x, y of each observation
/// - `inverse_standard_deviations` (n)
/// - `rig` (29): as for `pixel_step_linearize_point`
/// - `point_steps` (3n): the step of each point, in units of the baseline
/// - `out` (12): pose step (5), cost, squared residual, gradient norm, minimum rcond, RMS of the
///   point steps, point damping norm, predicted reduction
/// - `weak` (1): weak point count
///
/// Refuses: rows 1 to 11, in this order.
/// The formula: `c_calls::step_calls::step`.
#[unsafe(no_mangle)]
pub extern "C" fn pixel_step_step<'a>(
    points: &[f64],
    view1: &'a [f64],
    view2: &'a [f64],
    inverse_standard_deviations: &[f64],
    rig: &[f64],
    damping: f64,
    point_steps: &mut [f64],
    out: &mut [f64],
    weak: &mut [u16],
) -> u64
    ensures { Calls.HasStepOutcome result point_steps.new out.new weak.new
        (Calls.step (Problem.problem points.now view1.now view2.now
        inverse_standard_deviations.now (Layout.rig rig.now) damping)
        rig.now point_steps.old out.old weak.old) }
{
    step_calls::step(
        points,
        view1,
        view2,
        inverse_standard_deviations,
        rig,
        damping,
        point_steps,
        out,
        weak,
    )
}

/// A step of the pose, limited to 0.5 in rotation and in translation.
///
/// - `x` (5), `out` (5): rotation (3), translation (2)
///
/// Refuses: row 1.
/// The formula: `c_calls::step_calls::limit_pose_step`.
#[unsafe(no_mangle)]
pub extern "C" fn pixel_step_limit_pose_step(x: &[f64], out: &mut [f64]) -> u64
    ensures { Outcomes.HasOutcome result out.new (Calls.limit_pose_step x.now out.old) }
{
    step_calls::limit_pose_step(x, out)
}
