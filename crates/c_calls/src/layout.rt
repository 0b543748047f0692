//! The structs of the calls, read from the flat numbers of lent slices in the layouts of
//! docs/SPECIFICATION.md, "C interface".

pub(crate) mod numbers;

ghost use Rattle.std.specs.Prelude.{◌≡◌, length};
ghost use Rattle.c_calls.specs.Layout as Layout;

use crate::slices;
use linearization::LocalLinearization;
use linearization::views::{Correspondence, RelativePose, Rig};
use projection::PinholeCamera;
use schur::reduced_system::ReducedSystem;

// fx, fy, cx, cy, skew
pub(crate) fn camera(x: [f64; 5]) -> PinholeCamera
    ensures { result ≡ Layout.camera x }
{
    PinholeCamera {
        fx: x[0],
        fy: x[1],
        cx: x[2],
        cy: x[3],
        skew: x[4],
    }
}

// Camera 1 and 2, rotation, translation, translation basis, baseline
#[tactic(auto, unfolding(crate::specs::Layout::rig))]
pub(crate) fn rig(x: &[f64]) -> Rig
    requires { length x.now ≡ 29 }
    ensures { result ≡ Layout.rig x.now }
{
    Rig {
        camera1: camera(slices::part(x, 0)),
        camera2: camera(slices::part(x, 5)),
        pose: RelativePose {
            rotation: slices::part(x, 10),
            translation: slices::part(x, 19),
            translation_basis: slices::part(x, 22),
            baseline: x[28],
        },
    }
}

// The point, where view 1 and view 2 saw it, the inverse standard deviation
#[tactic(auto, unfolding(crate::specs::Layout::correspondence))]
pub(crate) fn correspondence(x: &[f64]) -> Correspondence
    requires { length x.now ≡ 8 }
    ensures { result ≡ Layout.correspondence x.now }
{
    Correspondence {
        point: slices::part(x, 0),
        view1: slices::part(x, 3),
        view2: slices::part(x, 5),
        inverse_standard_deviation: x[7],
    }
}

// The Hessians by rows, the gradients, cost, squared residual
#[tactic(auto, unfolding(crate::specs::Layout::block))]
pub(crate) fn block(x: &[f64]) -> LocalLinearization
    requires { length x.now ≡ 59 }
    ensures { result ≡ Layout.block x.now }
{
    LocalLinearization {
        pose_hessian: slices::part(x, 0),
        cross_hessian: slices::part(x, 25),
        point_hessian: slices::part(x, 40),
        pose_gradient: slices::part(x, 49),
        point_gradient: slices::part(x, 54),
        cost: x[57],
        squared_residual: x[58],
    }
}

// From 45 numbers and three counts; the flag is false where it is 0.
#[tactic(auto, unfolding(crate::specs::Layout::system))]
pub(crate) fn system(x: &[f64], counts: &[u16]) -> ReducedSystem
    requires { (length x.now ≡ 45) × (length counts.now ≡ 3) }
    ensures { result ≡ Layout.system x.now counts.now }
{
    ReducedSystem {
        hessian: slices::part(x, 0),
        gradient: slices::part(x, 25),
        cost: x[30],
        squared_residual: x[31],
        full_pose_gradient: slices::part(x, 32),
        pose_diagonal: slices::part(x, 37),
        point_model_reduction: x[42],
        scaled_point_gradient_inf_norm: x[43],
        minimum_point_rcond: x[44],
        weak_point_count: counts[0],
        block_count: counts[1],
        valid: counts[2] != 0,
    }
}
