//! The structs of the calls as flat numbers, in the order in which `layout` reads them.

ghost use Rattle.std.specs.Prelude.{◌≡◌};
ghost use Rattle.c_calls.specs.LayoutNumbers as LayoutNumbers;

use crate::slices;
use linearization::LocalLinearization;
use schur::reduced_system::ReducedSystem;

// The 59 numbers of a block
pub(crate) fn block_numbers(b: LocalLinearization) -> [f64; 59]
    ensures { result ≡ LayoutNumbers.block_numbers b }
{
    let mut values = [0.0; 59];
    slices::copy(&b.pose_hessian, 0, &mut values);
    slices::copy(&b.cross_hessian, 25, &mut values);
    slices::copy(&b.point_hessian, 40, &mut values);
    slices::copy(&b.pose_gradient, 49, &mut values);
    slices::copy(&b.point_gradient, 54, &mut values);
    slices::copy(&[b.cost, b.squared_residual], 57, &mut values);
    values
}

// The 45 numbers of a system
pub(crate) fn system_numbers(s: ReducedSystem) -> [f64; 45]
    ensures { result ≡ LayoutNumbers.system_numbers s }
{
    let mut values = [0.0; 45];
    slices::copy(&s.hessian, 0, &mut values);
    slices::copy(&s.gradient, 25, &mut values);
    slices::copy(&[s.cost, s.squared_residual], 30, &mut values);
    slices::copy(&s.full_pose_gradient, 32, &mut values);
    slices::copy(&s.pose_diagonal, 37, &mut values);
    let last = [
        s.point_model_reduction,
        s.scaled_point_gradient_inf_norm,
        s.minimum_point_rcond,
    ];
    slices::copy(&last, 42, &mut values);
    values
}
