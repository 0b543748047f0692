//! The calls of the C interface for one whole step of the two-view problem, and for the limit of
//! the pose step (docs/SPECIFICATION.md, "C interface"). `pixel_step` exports them.

ghost use Rattle.std.specs.Prelude.{◌≡◌};
ghost use Rattle.problem.specs.Problem as Problems;
ghost use Rattle.c_calls.specs.Outcomes as Outcomes;
ghost use Rattle.c_calls.specs.Layout as Layout;
ghost use Rattle.c_calls.specs.StepCalls as Calls;

use crate::{layout, outcomes, slices};
use optimizer::{StepResult, pose_step};
use problem::correspondences::Problem;

/// One whole step of n points: the step of the pose, limited, and the step of each point.
///
/// - `points` (3n): x, y, z of each point, in the frame of camera 1
/// - `view1`, `view2` (2n): x, y of each observation
/// - `inverse_standard_deviations` (n)
/// - `rig` (29): as for `linearize_point`
/// - `point_steps` (3n): the step of each point, in units of the baseline
/// - `out` (12): pose step (5), cost, squared residual, gradient norm, minimum rcond, RMS of the
///   point steps, point damping norm, predicted reduction
/// - `weak` (1): weak point count
///
/// Refuses: rows 1 to 11, in this order.
/// The formula: `optimizer::step`.
#[tactic(auto, unfolding(crate::specs::StepCalls::step, crate::specs::Outcomes::code))]
pub fn step<'a>(
    points: &[f64],
    view1: &'a [f64],
    view2: &'a [f64],
    inverse_standard_deviations: &[f64],
    rig: &[f64],
    damping: f64,
    point_steps: &mut [f64],
    out: &mut [f64],
    weak: &mut [u16],
) -> u64
    ensures { Calls.HasStepOutcome result point_steps.new out.new weak.new
        (Calls.step (Problems.problem points.now view1.now view2.now
        inverse_standard_deviations.now (Layout.rig rig.now) damping)
        rig.now point_steps.old out.old weak.old) }
{
    if rig.len() != 29 || out.len() != 12 || weak.len() != 1 {
        return outcomes::lengths();
    }
    let problem = Problem {
        points,
        view1,
        view2,
        inverse_standard_deviations,
        rig: layout::rig(rig),
        damping,
    };
    let step = match optimizer::step(&problem, point_steps) {
        Ok(step) => step,
        Err(refusal) => return outcomes::code(refusal),
    };
    out.copy_from_slice(&step_numbers(step));
    weak.copy_from_slice(&[step.weak_point_count]);
    0
}

/// A step of the pose, limited to 0.5 in rotation and in translation.
///
/// - `x` (5), `out` (5): rotation (3), translation (2)
///
/// Refuses: row 1.
/// The formula: `optimizer::pose_step::limit_pose_step`.
#[tactic(auto, unfolding(crate::specs::StepCalls::limit_pose_step))]
pub fn limit_pose_step(x: &[f64], out: &mut [f64]) -> u64
    ensures { Outcomes.HasOutcome result out.new (Calls.limit_pose_step x.now out.old) }
{
    if x.len() != 5 || out.len() != 5 {
        return outcomes::lengths();
    }
    outcomes::store_result(Ok(pose_step::limit_pose_step(slices::whole(x))), out)
}

fn step_numbers(s: StepResult) -> [f64; 12]
    ensures { result ≡ Calls.step_numbers s }
{
    let p = s.pose_step;
    [
        p[0],
        p[1],
        p[2],
        p[3],
        p[4],
        s.cost,
        s.squared_residual,
        s.gradient_norm,
        s.minimum_point_rcond,
        s.point_step_rms,
        s.point_damping_norm,
        s.predicted_reduction,
    ]
}
