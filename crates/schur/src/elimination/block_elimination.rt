// SPDX-FileCopyrightText: 2026 Pierre Moulon and OpenMVG Rust contributors
// SPDX-License-Identifier: MIT OR Apache-2.0

//! A block that factors, and one that does not, and whether it is weak: `add` of
//! kernel/two_view/schur.rs.

ghost use Rattle.std.specs.Prelude.{◌≡◌, ◌<◌, if◌then◌else◌};
ghost use Rattle.numerics.specs.Binary64.{zero};
ghost use Rattle.schur.specs.BlockElimination as BlockElimination;
ghost use Rattle.schur.specs.ReducedAdd as ReducedAdd;

use crate::elimination;
use crate::reduced_system::ReducedSystem;
use linearization::LocalLinearization;
use numerics::extrema;
use point_block::PointBlockFactor;
use point_block::point_damping::ValidDamping;

// Changes the equations by a block and counts it where it is weak. Gives whether it factors.
#[tactic(auto, unfolding(crate::specs::BlockElimination::elimination_of, crate::specs::BlockElimination::elimination_by_inverse, crate::specs::BlockElimination::elimination_without_factor))]
#[inline(always)]
pub(crate) fn eliminate(
    system: &mut ReducedSystem,
    local: LocalLinearization,
    damping: ValidDamping,
) -> bool
    requires { system.old.weak_point_count < ReducedAdd.max_blocks }
    ensures factored { result
        ≡ (BlockElimination.elimination_of system.old local damping).factored }
    ensures system { let e = BlockElimination.elimination_of system.old local damping in
        system.new ≡ record system.old {
          hessian = e.hessian;
          gradient = e.gradient;
          point_model_reduction = e.point_model_reduction;
          weak_point_count = BlockElimination.count_if e.weak system.old.weak_point_count;
          minimum_point_rcond = e.minimum_point_rcond;
        } }
{
    match PointBlockFactor::new(local.point_hessian, damping) {
        Ok(factor) => {
            take_in_factored(system, local, damping, factor);
            true
        }
        Err(_) => {
            take_in_unfactored(system, damping.is_zero());
            false
        }
    }
}

// A block that factors: the Schur complement of its point enters the equations. Its rcond is worked
// out at damping zero only.
#[tactic(auto, unfolding(crate::specs::BlockElimination::elimination_by_inverse))]
#[inline(always)]
fn take_in_factored(
    system: &mut ReducedSystem,
    local: LocalLinearization,
    damping: ValidDamping,
    factor: PointBlockFactor,
)
    requires { system.old.weak_point_count < ReducedAdd.max_blocks }
    ensures { let e = BlockElimination.elimination_by_inverse
        system.old local damping factor.inverse in
        system.new ≡ record system.old {
          hessian = e.hessian;
          gradient = e.gradient;
          point_model_reduction = e.point_model_reduction;
          weak_point_count = BlockElimination.count_if e.weak system.old.weak_point_count;
          minimum_point_rcond = e.minimum_point_rcond;
        } }
{
    system.hessian = elimination::reduced_hessian(system.hessian, factor, local);
    system.gradient = elimination::reduced_gradient(system.gradient, factor, local);
    system.point_model_reduction = elimination::point_reduction(
        system.point_model_reduction,
        factor,
        local,
    );
    if damping.is_zero() {
        let rcond = factor.reciprocal_condition_number(local.point_hessian);
        system.minimum_point_rcond = extrema::min(system.minimum_point_rcond, rcond);
        system.weak_point_count += u16::from(point_block::is_weak(rcond));
    }
}

// A block that does not factor: at damping zero only, it is weak and the smallest rcond is 0.
#[inline(always)]
fn take_in_unfactored(system: &mut ReducedSystem, at_zero: bool)
    requires { system.old.weak_point_count < ReducedAdd.max_blocks }
    ensures { system.new ≡ record system.old {
      weak_point_count = BlockElimination.count_if at_zero system.old.weak_point_count;
      minimum_point_rcond = if at_zero then zero else system.old.minimum_point_rcond;
    } }
{
    if at_zero {
        system.minimum_point_rcond = 0.0;
        system.weak_point_count += 1;
    }
}
