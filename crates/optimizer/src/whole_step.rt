// SPDX-FileCopyrightText: 2026 Pierre Moulon and OpenMVG Rust contributors
// SPDX-License-Identifier: MIT OR Apache-2.0

//! One whole step: checks, reduced system, solve, point steps, predicted reduction. It is
//! `refine_impl` of kernel/two_view/optimizer.rs, from `reduced_system` to `predicted_reduction`,
//! run once.

ghost use Rattle.std.specs.Prelude.{◌≡◌, IsTrue, Ok};
ghost use Rattle.std.specs.Result.{result_and};
ghost use Rattle.problem.specs.Problem as Problems;
ghost use Rattle.problem.specs.Checks as Checks;
ghost use Rattle.optimizer.specs.Step as Steps;

use crate::{StepResult, assembly, point_steps, pose_step};
use problem::checks::{CheckedProblem, ReadableProblem};
use problem::correspondences::Problem;
use refusal::Refusal;
use schur::reduced_system::ReducedSystem;

/// One damped Gauss-Newton step of a problem with n points. Writes the step of each point into
/// `point_steps` (3n numbers, in parts of the baseline) and gives the limited step of the pose with
/// the step's figures. Refuses: rows 1 to 11 in the order of their numbers, each over all points
/// before the next; `point_steps` then stays as it was. docs/SPECIFICATION.md, "Whole step".
pub fn step(problem: &Problem, point_steps: &mut [f64]) -> Result<StepResult, Refusal>
    ensures { Steps.StepOutcome problem.now point_steps.old result point_steps.new }
{
    // Where the two lengths differ, one of them is not 3n; where they do not, row 1 tests both.
    if point_steps.len() != problem.points.len() {
        return Err(Refusal::Lengths);
    }
    let readable = ReadableProblem::new(problem)?;
    // Each point is tested as its block is made, so that rows 4 to 9 are asked after the sums.
    let mut system = ReducedSystem::new();
    let accepted = assembly::add_blocks(&readable, &mut system);
    let checked = checked(readable, accepted)?;
    system.damp(checked.damping());
    if !system.is_valid() {
        return Err(Refusal::NotFactored);
    }
    let x = solver::solve_positive_definite(system.hessian, system.gradient)?;
    let pose_step = pose_step::negated_limited_step(x);
    let sums = point_steps::write_steps(&checked, pose_step, point_steps);
    Ok(StepResult::of(&checked, &system, pose_step, sums))
}

// The problem, checked by rows 4 to 9. The points are looked at again, in the order of the rows,
// only where one is refused or row 5 or 7 refuses.
fn checked(problem: ReadableProblem<'_>, accepted: bool) -> Result<CheckedProblem<'_>, Refusal>
    requires { IsTrue accepted → Checks.AcceptsFirst problem (Problems.count problem) }
    ensures { result ≡ result_and (Checks.check_problem problem.entry) (Ok problem.entry) }
{
    if accepted && problem.passes_rows_5_and_7() {
        return Ok(CheckedProblem { readable: problem });
    }
    CheckedProblem::of(problem)
}
