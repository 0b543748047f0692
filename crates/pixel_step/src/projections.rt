//! The projection of a point in one camera.

ghost use Rattle.c_calls.specs.Outcomes as Outcomes;
ghost use Rattle.c_calls.specs.PointCalls as Calls;

use c_calls::block_calls;

/// The residual of a point in the camera's frame against its observation, and the Jacobian of the
/// residual by the point.
///
/// - `camera` (5): fx, fy, cx, cy, skew
/// - `observation` (2): x, y
/// - `point` (3): x, y, z
/// - `out` (8): residual (2), Jacobian by rows (6)
///
/// Refuses: row 1, then row 9.
/// The formula: `c_calls::block_calls::pixel_projection`.
#[unsafe(no_mangle)]
pub extern "C" fn pixel_step_pixel_projection(
    camera: &[f64],
    observation: &[f64],
    point: &[f64],
    out: &mut [f64],
) -> u64
    ensures { Outcomes.HasOutcome result out.new
        (Calls.pixel_projection camera.now observation.now point.now out.old) }
{
    block_calls::pixel_projection(camera, observation, point, out)
}
