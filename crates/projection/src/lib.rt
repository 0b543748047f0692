// SPDX-FileCopyrightText: 2026 Pierre Moulon and OpenMVG Rust contributors
// SPDX-License-Identifier: MIT OR Apache-2.0

//! The projection of a point into one camera: the pixel half of kernel/projection.rs, with
//! `PinholeCamera` of kernel/camera.rs, and a point's place in the second camera's frame.
//!
//! `pixel_projection` gives the residual and the Jacobian of a point, or refuses it;
//! `tested_projection` gives them by the formulas alone, beside whether they are let through.
//! `rotate` and `camera_point` move a point into the second camera's frame.
//!
//! All of it is inlined into the loops over points, so that a camera, a point and what becomes of
//! it stay in registers: of a chain of calls that hand arrays on, every link has to be.
//! `pixel_projection` is called where a row is looked for and over C, and not in these loops;
//! inlined there it hands its `Result` on without a copy.
#![tactic(auto)]

mod camera_frame;

ghost use Rattle.std.specs.Prelude.{◌≡◌, [], ◌∷◌};
ghost use Rattle.refusal.specs.Outcome.{outcome};
ghost use Rattle.projection.specs.PixelProjection as PixelProjection;
ghost use Rattle.projection.specs.PixelProjection.{zero_projection};

pub use camera_frame::{camera_point, non_finite_pose_is_not_projectable, rotate};
use refusal::Refusal;

/// A camera without distortion: `PinholeCamera` of kernel/camera.rs. All five are in pixels.
#[derive(Clone, Copy)]
pub struct PinholeCamera {
    /// The focal length along x
    pub fx: f64,
    /// The focal length along y
    pub fy: f64,
    /// The principal point's x
    pub cx: f64,
    /// The principal point's y
    pub cy: f64,
    /// What y adds to the pixel's x
    pub skew: f64,
}

/// What a point's projection is off by, and how that moves with the point
#[derive(Clone, Copy)]
pub struct Projection {
    /// The projected point less the observed one, in pixels
    pub residual: [f64; 2],
    /// The residual's derivative by the point in the camera's frame: two rows of three
    pub jacobian: [f64; 6],
}

/// A projection by the formulas alone, whose entries may be infinite or a NaN, beside whether
/// `pixel_projection` lets it through
#[derive(Clone, Copy)]
pub struct TestedProjection {
    /// The residual and the Jacobian by the formulas
    pub projection: Projection,
    /// Whether `pixel_projection` lets them through
    pub projectable: bool,
}

/// The projection of a point in the camera's frame, less what was observed, and its Jacobian: the
/// Rust's `pixel_projection`. Refuses: row 9 where a coordinate is not finite, where the depth is
/// not above 64ε of the largest absolute coordinate, or where an entry of the residual or of the
/// Jacobian is not finite.
#[tactic(auto, using(crate::proofs::Laws::let_through, crate::proofs::Laws::refused))]
#[inline(always)]
pub fn pixel_projection(
    camera: &PinholeCamera,
    observation: [f64; 2],
    point: [f64; 3],
) -> Result<Projection, Refusal>
    ensures result { result ≡ PixelProjection.pixel_projection camera.now observation point }
    ensures outcome { outcome zero_projection result
        ≡ outcome zero_projection (PixelProjection.pixel_projection camera.now observation point) }
{
    let TestedProjection {
        projection,
        projectable,
    } = tested_projection(camera, observation, point);
    if projectable {
        Ok(projection)
    } else {
        Err(Refusal::NotProjectable)
    }
}

/// `pixel_projection` with the verdict as a flag in place of row 9: a loop takes it by value, where
/// a `Result` is copied.
#[tactic(auto, using(crate::proofs::Laws::projectable_is))]
#[inline(always)]
pub fn tested_projection(
    camera: &PinholeCamera,
    observation: [f64; 2],
    point: [f64; 3],
) -> TestedProjection
    ensures { result ≡ PixelProjection.tested_projection camera.now observation point }
{
    let projection = residual_and_jacobian(camera, observation, point);
    TestedProjection {
        projection,
        projectable: is_in_front(point) & all_finite(projection),
    }
}

// Whether the coordinates are finite and the depth is above 64ε of the largest absolute value of
// them. Always inlined, so that the coordinates stay in registers.
#[tactic(auto, unfolding(crate::specs::PixelProjection::is_in_front))]
#[inline(always)]
fn is_in_front(point: [f64; 3]) -> bool
    ensures { result ≡ PixelProjection.is_in_front point }
{
    is_in_front_of(point[0], point[1], point[2])
}

// The same of the coordinates one by one, by comparisons alone: 64ε of an absolute value is below z
// where 64ε of the value is between −z and z. That of an infinity or of a NaN never is. Where 64ε
// of z is below z, z is above 0, so that its own negative need not be asked.
#[inline(always)]
fn is_in_front_of(x: f64, y: f64, z: f64) -> bool
    ensures { result ≡ PixelProjection.is_in_front (x ∷ y ∷ z ∷ []) }
{
    let right = numerics::RELATIVE_TOLERANCE * x;
    let down = numerics::RELATIVE_TOLERANCE * y;
    (numerics::RELATIVE_TOLERANCE * z < z)
        & ((right < z) & (-z < right))
        & ((down < z) & (-z < down))
}

// The residual and the Jacobian by the formulas alone
#[tactic(auto, unfolding(crate::specs::PixelProjection::residual_and_jacobian))]
#[inline(always)]
fn residual_and_jacobian(
    camera: &PinholeCamera,
    observation: [f64; 2],
    point: [f64; 3],
) -> Projection
    ensures { result ≡ PixelProjection.residual_and_jacobian camera.now observation point }
{
    let inverse_depth = numerics::recip(point[2]);
    let inverse_depth_squared = inverse_depth * inverse_depth;
    let x_numerator = camera.fx * point[0] + camera.skew * point[1];
    Projection {
        residual: [
            x_numerator * inverse_depth + camera.cx - observation[0],
            camera.fy * point[1] * inverse_depth + camera.cy - observation[1],
        ],
        jacobian: [
            camera.fx * inverse_depth,
            camera.skew * inverse_depth,
            -x_numerator * inverse_depth_squared,
            0.0,
            camera.fy * inverse_depth,
            -camera.fy * point[1] * inverse_depth_squared,
        ],
    }
}

// By one product, as `numerics::vectors::all_finite`: written out, so that the numbers stay in
// registers.
#[inline(always)]
fn all_finite(projection: Projection) -> bool
    ensures { result ≡ PixelProjection.all_finite projection }
{
    let r = projection.residual;
    let j = projection.jacobian;
    0.0 * r[0] * r[1] * j[0] * j[1] * j[2] * j[3] * j[4] * j[5] == 0.0
}
