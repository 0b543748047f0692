//! The calls of the C interface on a point, over lent slices: its projection, its block of the
//! normal equations and its step (docs/SPECIFICATION.md, "C interface"). `pixel_step` exports them.

ghost use Rattle.std.specs.Prelude.{◌≡◌};
ghost use Rattle.c_calls.specs.Outcomes as Outcomes;
ghost use Rattle.c_calls.specs.PointCalls as Calls;

use crate::{layout, outcomes, slices};
use projection::Projection;
use schur::point_step;
use schur::point_step::PointStep;

/// The residual of a point in the camera's frame against its observation, and the Jacobian of the
/// residual by the point.
///
/// - `camera` (5): fx, fy, cx, cy, skew
/// - `observation` (2): x, y
/// - `point` (3): x, y, z
/// - `out` (8): residual (2), Jacobian by rows (6)
///
/// Refuses: row 1, then row 9.
/// The formula: `projection::pixel_projection`.
#[tactic(auto, unfolding(crate::specs::PointCalls::pixel_projection))]
pub fn pixel_projection(camera: &[f64], observation: &[f64], point: &[f64], out: &mut [f64]) -> u64
    ensures { Outcomes.HasOutcome result out.new
        (Calls.pixel_projection camera.now observation.now point.now out.old) }
{
    if camera.len() != 5 || observation.len() != 2 || point.len() != 3 || out.len() != 8 {
        return outcomes::lengths();
    }
    let projection = projection::pixel_projection(
        &layout::camera(slices::whole(camera)),
        slices::whole(observation),
        slices::whole(point),
    );
    outcomes::store_result(projection.map(projection_numbers), out)
}

/// The block of a correspondence: its part of the normal equations, from both views.
///
/// - `rig` (29): camera 1 (5), camera 2 (5), rotation by rows (9), translation (3), translation
///   basis (two vectors of 3), baseline
/// - `correspondence` (8): point (3), view 1 (2), view 2 (2), inverse standard deviation
/// - `out` (59): pose Hessian (25), cross Hessian (15), point Hessian (9), pose gradient (5), point
///   gradient (3), cost, squared residual
///
/// Refuses: row 1, then row 4, then row 9 with view 1 or 2.
/// The formula: `linearization::linearize_point`.
#[tactic(auto, unfolding(crate::specs::PointCalls::linearize_point))]
pub fn linearize_point(rig: &[f64], correspondence: &[f64], out: &mut [f64]) -> u64
    ensures { Outcomes.HasOutcome result out.new
        (Calls.linearize_point rig.now correspondence.now out.old) }
{
    if rig.len() != 29 || correspondence.len() != 8 || out.len() != 59 {
        return outcomes::lengths();
    }
    let block = linearization::linearize_point(
        &layout::rig(rig),
        layout::correspondence(correspondence),
    );
    outcomes::store_result(block.map(layout::numbers::block_numbers), out)
}

/// The step of a point that goes with a step of the pose, in units of the baseline, and its
/// damping norm.
///
/// - `block` (59): laid out as by `linearize_point`
/// - `pose_step` (5): rotation (3), translation (2)
/// - `out` (4): step (3), damping norm
///
/// Refuses: row 1, then row 3, then row 10.
/// The formula: `schur::point_step::point_step_with_damping_norm`.
#[tactic(auto, unfolding(crate::specs::PointCalls::point_step))]
pub fn point_step_with_damping_norm(
    block: &[f64],
    damping: f64,
    pose_step: &[f64],
    out: &mut [f64],
) -> u64
    ensures { Outcomes.HasOutcome result out.new
        (Calls.point_step block.now damping pose_step.now out.old) }
{
    if block.len() != 59 || pose_step.len() != 5 || out.len() != 4 {
        return outcomes::lengths();
    }
    let step = point_step::point_step_with_damping_norm(
        layout::block(block),
        damping,
        slices::whole(pose_step),
    );
    outcomes::store_result(step.map(point_step_numbers), out)
}

// The residual, then the Jacobian
fn projection_numbers(p: Projection) -> [f64; 8]
    ensures { result ≡ Calls.projection_numbers p }
{
    let r = p.residual;
    let j = p.jacobian;
    [r[0], r[1], j[0], j[1], j[2], j[3], j[4], j[5]]
}

// The step, then its damping norm
fn point_step_numbers(p: PointStep) -> [f64; 4]
    ensures { result ≡ Calls.point_step_numbers p }
{
    let s = p.step;
    [s[0], s[1], s[2], p.damping_norm]
}
