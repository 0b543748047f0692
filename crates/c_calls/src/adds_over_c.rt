//! Theorems about the calls over the C interface: what a list of adds leaves, and what stands
//! beside a refusal.

ghost use Rattle.c_calls.specs.AddsOverC as AddsOverC;
ghost use Rattle.c_calls.specs.Zeros as Zeros;

/// Every list of calls of `system_add`, from memory that `system_new` wrote, is a list of calls of
/// `add` on a new system: the memory holds the system that those leave, and the codes that come
/// back are those of their refusals (docs/SPECIFICATION.md, "Sequences of adds").
pub fn every_list_over_c()
    ensures { AddsOverC.EveryListOverC }
{}

/// Beside a refusal every number of a projection, a factor, a solution, a block, a point step and a
/// whole step is +0 (docs/SPECIFICATION.md, "Refusals").
#[tactic(auto, unfolding(linearization::specs::Linearize::zero_linearization, crate::specs::LayoutNumbers::block_numbers))]
pub fn every_number_beside_a_refusal_is_zero()
    ensures { Zeros.EveryNumberIsZero }
{}
