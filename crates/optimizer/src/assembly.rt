// SPDX-FileCopyrightText: 2026 Pierre Moulon and OpenMVG Rust contributors
// SPDX-License-Identifier: MIT OR Apache-2.0

//! The reduced system of a whole problem, from the blocks of all points: `reduced_system` of
//! kernel/two_view/optimizer.rs.

ghost use Rattle.std.specs.Prelude.{◌≡◌, IsTrue};
ghost use Rattle.schur.specs.Reduced as Reduced;
ghost use Rattle.problem.specs.Problem as Problems;
ghost use Rattle.problem.specs.Checks as Checks;
ghost use Rattle.optimizer.specs.Assembly as Assembly;

use linearization::TestedBlock;
use problem::checks::{CheckedProblem, ReadableProblem};
use problem::correspondences::ProblemPoint;
use schur::reduced_system::ReducedSystem;

/// The reduced system of a problem: the blocks of all points, taken in in their order at the
/// problem's damping, then the pose damping. Refuses nothing: rows 1 to 9 let the problem through.
#[tactic(auto, unfolding(crate::specs::Assembly::reduced_system))]
pub fn reduced_system(problem: &CheckedProblem) -> ReducedSystem
    ensures { result ≡ Assembly.reduced_system problem.now }
{
    let mut system = ReducedSystem::new();
    let _accepted = add_blocks(&problem.readable, &mut system);
    system.damp(problem.damping());
    system
}

// Takes the blocks of all points into a new system, before the pose damping, and gives whether rows
// 4 and 9 let each point through: a point is tested as its block is made. The system is lent, so
// that it is never copied: a copy of more than 128 bytes is a call of the C library, after whose
// wide stores some processors run slower for the next 0.7 ms.
#[tactic(auto, unfolding(crate::specs::Assembly::system_to))]
pub(crate) fn add_blocks(problem: &ReadableProblem, system: &mut ReducedSystem) -> bool
    requires { system.old ≡ Reduced.new_system }
    ensures system { let p = problem.now in
        system.new ≡ Assembly.system_to p (Problems.count p) }
    ensures accepted { let p = problem.now in
        IsTrue result → Checks.AcceptsFirst p (Problems.count p) }
    ensures each { let p = problem.now in
        Checks.AcceptsFirst p (Problems.count p) → IsTrue result }
{
    let fitting = problem.fitting();
    let damping = problem.damping();
    let mut accepted = true;
    for index in 0..fitting.count() {
        let point = ProblemPoint { fitting, index };
        let TestedBlock {
            block,
            accepted: passes,
        } = linearization::tested_block(fitting.rig(), point.correspondence());
        let Ok(()) = schur::take_in(system, block, damping) else {
            unreachable!()
        };
        accepted &= passes;
    }
    accepted
}
