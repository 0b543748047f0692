// SPDX-FileCopyrightText: 2026 Pierre Moulon and OpenMVG Rust contributors
// SPDX-License-Identifier: MIT OR Apache-2.0

//! A block taken into the reduced system, with its point eliminated: `add` of
//! kernel/two_view/schur.rs.

ghost use Rattle.std.specs.Prelude.{◌≡◌, ◌<◌};
ghost use Rattle.std.specs.Result.{result_err};
ghost use Rattle.refusal.specs.Outcome.{outcome};
ghost use Rattle.schur.specs.ReducedAdd as ReducedAdd;

use crate::reduced_system::ReducedSystem;
use crate::{elimination, gradient_norm, pose_model};
use linearization::LocalLinearization;
use numerics::extrema;
use point_block::point_damping::ValidDamping;
use refusal::Refusal;

// The most blocks that a system takes in
const MAX_BLOCKS: u16 = 65535;

/// The system with a block taken in at a damping, by value. Refuses: row 3, then row 12, then
/// row 13. docs/SPECIFICATION.md, "Reduced system".
#[tactic(auto, unfolding(crate::specs::ReducedAdd::add))]
pub fn add(
    mut system: ReducedSystem,
    local: LocalLinearization,
    damping: f64,
) -> Result<ReducedSystem, Refusal>
    ensures result { result ≡ ReducedAdd.add system local damping }
    ensures outcome { outcome system result ≡ outcome system (ReducedAdd.add system local damping) }
{
    let damping = ValidDamping::new(damping)?;
    take_in(&mut system, local, damping)?;
    Ok(system)
}

/// `add` on a lent system, as the Rust's `add(&mut self)`. Refuses: row 3, then row 12, then row
/// 13; it then leaves the system as it was.
pub fn add_to(
    system: &mut ReducedSystem,
    local: LocalLinearization,
    damping: f64,
) -> Result<(), Refusal>
    ensures refusal { result_err result ≡ result_err (ReducedAdd.add system.old local damping) }
    ensures system { system.new
        ≡ ReducedAdd.system_after system.old (ReducedAdd.add system.old local damping) }
{
    *system = add(*system, local, damping)?;
    Ok(())
}

/// `add` on a lent system at a valid damping. Refuses: row 12, then row 13; it then leaves the
/// system as it was. Inlined into the loop that makes the blocks, with all that it calls, so that
/// neither block nor system is copied.
#[inline(always)]
pub fn take_in(
    system: &mut ReducedSystem,
    local: LocalLinearization,
    damping: ValidDamping,
) -> Result<(), Refusal>
    ensures refusal { result ≡ ReducedAdd.check_room system.old }
    ensures system { system.new
        ≡ ReducedAdd.system_after system.old (ReducedAdd.take_in system.old local damping) }
{
    check_room(system)?;
    add_block(system, local, damping);
    Ok(())
}

// Refuses: row 12, then row 13.
#[inline(always)]
fn check_room(system: &ReducedSystem) -> Result<(), Refusal>
    ensures { result ≡ ReducedAdd.check_room system.now }
{
    if system.weak_point_count > system.block_count {
        return Err(Refusal::WeakCount);
    }
    if system.block_count >= MAX_BLOCKS {
        return Err(Refusal::Full);
    }
    Ok(())
}

// Eliminates the block's point from the equations, and adds what every block brings to the sums.
#[tactic(auto, unfolding(crate::specs::ReducedAdd::with_block))]
#[inline(always)]
fn add_block(system: &mut ReducedSystem, local: LocalLinearization, damping: ValidDamping)
    requires { ReducedAdd.HasRoom system.old }
    ensures { system.new ≡ ReducedAdd.with_block system.old local damping }
{
    let factored = elimination::eliminate(system, local, damping);
    system.cost += local.cost;
    system.squared_residual += local.squared_residual;
    system.full_pose_gradient = pose_model::sum5(system.full_pose_gradient, local.pose_gradient);
    system.pose_diagonal = pose_model::sum5(
        system.pose_diagonal,
        pose_model::diagonal5(local.pose_hessian),
    );
    system.scaled_point_gradient_inf_norm = extrema::max(
        system.scaled_point_gradient_inf_norm,
        gradient_norm::point_gradient_norm(local.point_gradient, local.point_hessian),
    );
    system.valid &= factored;
    system.block_count += 1;
}
