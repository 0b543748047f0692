//! The calls of the C interface on a lent system: 45 numbers, and beside them the weak point count,
//! the block count and the flag (docs/SPECIFICATION.md, "C interface"). `pixel_step` exports them.

ghost use Rattle.std.specs.Prelude.{[], ◌∷◌, ◌≡◌, length};
ghost use Rattle.c_calls.specs.Outcomes as Outcomes;
ghost use Rattle.c_calls.specs.LayoutNumbers as LayoutNumbers;
ghost use Rattle.c_calls.specs.SystemCalls as Calls;

use crate::{layout, outcomes, slices};
use refusal::Refusal;
use schur::reduced_system::ReducedSystem;

/// A new system, written into lent memory.
///
/// - `system` (45): Hessian (25), gradient (5), cost, squared residual, full pose gradient (5),
///   pose diagonal (5), point model reduction, scaled point gradient norm, minimum rcond
/// - `counts` (3): weak point count, block count, flag
///
/// Refuses: row 1.
/// The formula: `schur::reduced_system::ReducedSystem::new`.
#[tactic(auto, unfolding(crate::specs::SystemCalls::new_system))]
pub fn system_new(system: &mut [f64], counts: &mut [u16]) -> u64
    ensures { Calls.HasSystemOutcome result system.new counts.new
        (Calls.new_system system.old counts.old) }
{
    if system.len() != 45 || counts.len() != 3 {
        return outcomes::lengths();
    }
    store_system(Ok(ReducedSystem::new()), system, counts)
}

/// The lent system takes in a block at a damping: the Schur complement of its point.
///
/// - `system` (45), `counts` (3): laid out as by `system_new`
/// - `block` (59): laid out as by `linearize_point`
///
/// Refuses: row 1, then row 3, then row 12, then row 13.
/// The formula: `schur::add`.
#[tactic(auto, unfolding(crate::specs::SystemCalls::add))]
pub fn system_add(system: &mut [f64], counts: &mut [u16], block: &[f64], damping: f64) -> u64
    ensures { Calls.HasSystemOutcome result system.new counts.new
        (Calls.add system.old counts.old block.now damping) }
{
    if system.len() != 45 || counts.len() != 3 || block.len() != 59 {
        return outcomes::lengths();
    }
    let s = layout::system(system, counts);
    let next = schur::add(s, layout::block(block), damping);
    store_system(next, system, counts)
}

/// The lent system with the damping added to the diagonal of its Hessian.
///
/// - `system` (45), `counts` (3): laid out as by `system_new`
///
/// Refuses: row 1, then row 3.
/// The formula: `ReducedSystem::finish_damping` of `schur`.
#[tactic(auto, unfolding(crate::specs::SystemCalls::finish_damping))]
pub fn system_finish_damping(system: &mut [f64], counts: &mut [u16], damping: f64) -> u64
    ensures { Calls.HasSystemOutcome result system.new counts.new
        (Calls.finish_damping system.old counts.old damping) }
{
    if system.len() != 45 || counts.len() != 3 {
        return outcomes::lengths();
    }
    let s = layout::system(system, counts);
    let next = s.finish_damping(damping);
    store_system(next, system, counts)
}

/// Whether the flag is true, and gradient and Hessian are finite.
///
/// - `system` (45), `counts` (3): laid out as by `system_new`
/// - `out` (1): 1 or 0
///
/// Refuses: row 1.
/// The formula: `ReducedSystem::is_valid` of `schur`.
#[tactic(auto, unfolding(crate::specs::SystemCalls::is_valid, crate::specs::Outcomes::code))]
pub fn system_is_valid(system: &[f64], counts: &[u16], out: &mut [u16]) -> u64
    ensures { Outcomes.HasOutcome result out.new
        (Calls.is_valid system.now counts.now out.old) }
{
    if system.len() != 45 || counts.len() != 3 || out.len() != 1 {
        return outcomes::lengths();
    }
    let s = layout::system(system, counts);
    out[0] = flag(s.is_valid());
    0
}

/// The largest scaled gradient entry, of the points and of the pose.
///
/// - `system` (45), `counts` (3): laid out as by `system_new`
/// - `out` (1)
///
/// Refuses: row 1.
/// The formula: `ReducedSystem::scaled_gradient_inf_norm` of `schur`.
#[tactic(auto, unfolding(crate::specs::SystemCalls::gradient_inf_norm))]
pub fn system_scaled_gradient_inf_norm(system: &[f64], counts: &[u16], out: &mut [f64]) -> u64
    ensures { Outcomes.HasOutcome result out.new
        (Calls.gradient_inf_norm system.now counts.now out.old) }
{
    if system.len() != 45 || counts.len() != 3 || out.len() != 1 {
        return outcomes::lengths();
    }
    let s = layout::system(system, counts);
    outcomes::store_result(Ok([s.scaled_gradient_inf_norm()]), out)
}

/// The reduction of the cost that the quadratic model predicts for a step of the pose.
///
/// - `system` (45), `counts` (3): laid out as by `system_new`
/// - `step` (5): rotation (3), translation (2)
/// - `out` (1)
///
/// Refuses: row 1, then row 3.
/// The formula: `ReducedSystem::predicted_reduction` of `schur`.
#[tactic(auto, unfolding(crate::specs::SystemCalls::predicted_reduction))]
pub fn system_predicted_reduction(
    system: &[f64],
    counts: &[u16],
    step: &[f64],
    damping: f64,
    point_damping_norm: f64,
    out: &mut [f64],
) -> u64
    ensures { Outcomes.HasOutcome result out.new
        (Calls.predicted_reduction system.now counts.now step.now damping point_damping_norm
        out.old) }
{
    if system.len() != 45 || counts.len() != 3 || step.len() != 5 || out.len() != 1 {
        return outcomes::lengths();
    }
    let s = layout::system(system, counts);
    let reduction = s.predicted_reduction(slices::whole(step), damping, point_damping_norm);
    outcomes::store_result(reduction.map(one_number), out)
}

// One number as an array: a function, since `map` of a closure hides its contract
fn one_number(x: f64) -> [f64; 1]
    ensures { result ≡ x ∷ [] }
{
    [x]
}

// Stores the next system, and returns 0; beside a refusal stores nothing, and returns its code.
#[tactic(auto, unfolding(crate::specs::Outcomes::code, crate::specs::LayoutNumbers::system_counts))]
fn store_system(next: Result<ReducedSystem, Refusal>, system: &mut [f64], counts: &mut [u16]) -> u64
    requires { (length system.old ≡ 45) × (length counts.old ≡ 3) }
    ensures { Calls.HasSystemOutcome result system.new counts.new
        (Calls.system_outcome (Calls.system_memory system.old counts.old) next) }
{
    let next = match next {
        Ok(next) => next,
        Err(refusal) => return outcomes::code(refusal),
    };
    system.copy_from_slice(&layout::numbers::system_numbers(next));
    counts.copy_from_slice(&[next.weak_point_count, next.block_count, flag(next.valid)]);
    0
}

// A flag as it is written
fn flag(b: bool) -> u16
    ensures { result ≡ LayoutNumbers.flag b }
{
    u16::from(b)
}
