// SPDX-FileCopyrightText: 2026 Pierre Moulon and OpenMVG Rust contributors
// SPDX-License-Identifier: MIT OR Apache-2.0

//! Rows 1 to 9 of a two-view problem over lent memory, the rows that look at no sum: what
//! `refine_impl` of kernel/two_view/optimizer.rs and `project` of residual.rs ask of their inputs.

ghost use Rattle.std.specs.Prelude.{◌≡◌, ◌<◌, ◌*◌, ◌&&◌, ◌==◌, nat_le, true, Ok, IsTrue};
ghost use Rattle.std.specs.Result.{result_and};
ghost use Rattle.refusal.specs.FirstRefusal.{first_refusal_from};
ghost use Rattle.point_block.specs.Damping.{is_valid_damping};
ghost use Rattle.problem.specs.Problem as Problems;
ghost use Rattle.problem.specs.Checks as Checks;

use crate::correspondences;
use crate::correspondences::{FittingProblem, Problem, ProblemPoint};
use linearization::views;
use numerics::vectors;
use point_block::point_damping::ValidDamping;
use refusal::{Refusal, View};
use std::marker::Model;

// Row 7 refuses fewer points.
const MINIMUM_POINTS: u32 = 5;

// Row 2 refuses more points.
const MAXIMUM_POINTS: usize = 65535;

/// A problem that rows 1 to 3 let through: its points can be read, and a system can take their
/// blocks in at its damping. Row 1 looks at the four inputs alone, and not at the memory for the
/// point steps. In clauses it is the record `Problem`.
#[derive(Drop)]
pub struct ReadableProblem<'a> {
    fitting: FittingProblem<'a>,
    damping: ValidDamping,
}

impl<'a> Model for ReadableProblem<'a> {
    ghost use Rattle.std.specs.Prelude.{◌≡◌, IsTrue};
    ghost use Rattle.point_block.specs.Damping.{is_valid_damping};
    ghost use Rattle.problem.specs.Problem.{Problem};

    ghost Value = { Problem };

    ghost view = { λ r. r.fitting };

    ghost invariant = { λ r. (r.damping ≡ r.fitting.damping)
        × IsTrue (is_valid_damping r.damping) };
}

/// A problem that rows 1 to 9 let through. In clauses it is the record `Problem`.
#[derive(Drop)]
pub struct CheckedProblem<'a> {
    /// The problem as rows 1 to 3 let it through
    pub readable: ReadableProblem<'a>,
}

impl<'a> Model for CheckedProblem<'a> {
    ghost use Rattle.std.specs.Prelude.{◌≡◌, Ok};
    ghost use Rattle.problem.specs.Problem.{Problem};
    ghost use Rattle.problem.specs.Checks.{check_problem};

    ghost Value = { Problem };

    ghost view = { λ c. c.readable };

    ghost invariant = { λ c. check_problem c.readable ≡ Ok tt };
}

impl<'a> ReadableProblem<'a> {
    /// The problem, as one whose points can be read. Refuses: row 1, row 2, then row 3.
    #[tactic(auto, unfolding(crate::specs::Checks::check_readable))]
    pub fn new(problem: &'a Problem<'a>) -> Result<ReadableProblem<'a>, Refusal>
        ensures { result ≡ result_and (Checks.check_readable problem.now) (Ok problem.now) }
    {
        let n = problem.count();
        let fit = is_multiple(problem.points.len(), 3, n)
            && is_multiple(problem.view1.len(), 2, n)
            && is_multiple(problem.view2.len(), 2, n);
        if !fit {
            return Err(Refusal::Lengths);
        }
        if n > MAXIMUM_POINTS {
            return Err(Refusal::TooManyPoints);
        }
        let fitting = FittingProblem { problem };
        let damping = ValidDamping::new(problem.damping)?;
        Ok(ReadableProblem { fitting, damping })
    }

    /// The problem as one whose lengths fit
    pub fn fitting(&self) -> &FittingProblem<'a>
        ensures { result.now ≡ self.now }
    {
        &self.fitting
    }

    /// The problem's damping λ, finite and not below 0
    pub fn damping(&self) -> ValidDamping
        ensures { result ≡ self.now.damping }
    {
        self.damping
    }

    /// Whether rows 5 and 7, which look at no point, let the problem through. Where rows 4 and 9
    /// let each point through as well, by themselves, so do rows 1 to 9 as a whole: rows 6 and 8
    /// are then settled by row 9.
    #[tactic(auto, using(crate::proofs::Passed::accepted_passes))]
    pub fn passes_rows_5_and_7(&self) -> bool
        ensures rows { result ≡ (Checks.is_valid_baseline self.now.rig.pose.baseline
            && nat_le Checks.min_points (Problems.count self.now)) }
        ensures passes { result ≡ true → Checks.AcceptsFirst self.now (Problems.count self.now)
            → Checks.check_problem self.now ≡ Ok tt }
    {
        is_valid_baseline(self.fitting.rig().pose.baseline)
            & (self.fitting.count() >= MINIMUM_POINTS)
    }
}

impl<'a> CheckedProblem<'a> {
    /// The problem, checked. Refuses: rows 1 to 9 in the order of their numbers, each over all
    /// points before the next.
    #[tactic(auto, using(crate::proofs::Passed::refused_first))]
    pub fn new(problem: &'a Problem<'a>) -> Result<CheckedProblem<'a>, Refusal>
        ensures { result ≡ result_and (Checks.check_problem problem.now) (Ok problem.now) }
    {
        Self::of(ReadableProblem::new(problem)?)
    }

    /// A readable problem, checked. Refuses: rows 4 to 9 in the order of their numbers, each over
    /// all points before the next.
    #[tactic(auto, using(crate::proofs::Passed::fitting_check))]
    pub fn of(readable: ReadableProblem<'a>) -> Result<CheckedProblem<'a>, Refusal>
        ensures { result ≡ result_and (Checks.check_problem readable.entry) (Ok readable.entry) }
    {
        check_values(readable.fitting())?;
        Ok(CheckedProblem { readable })
    }

    /// The problem as one whose lengths fit
    pub fn fitting(&self) -> &FittingProblem<'a>
        ensures problem { result.now ≡ self.now }
        ensures checked { Checks.check_problem self.now ≡ Ok tt }
    {
        self.readable.fitting()
    }

    /// The problem's damping λ, finite and not below 0
    pub fn damping(&self) -> ValidDamping
        ensures { result ≡ self.now.damping }
    {
        self.readable.damping()
    }
}

// Whether a length is each · n, by no product that could wrap
#[tactic(auto, using(crate::proofs::Parts::multiple))]
fn is_multiple(length: usize, each: usize, n: usize) -> bool
    requires { 0 < each }
    ensures { result ≡ (length == each * n) }
{
    length / each == n && length % each == 0
}

// Rows 4 to 9, where row 3 lets the damping through
#[tactic(auto, unfolding(crate::specs::Checks::check_values))]
fn check_values(fitting: &FittingProblem) -> Result<(), Refusal>
    requires { IsTrue (is_valid_damping fitting.now.damping) }
    ensures { result ≡ Checks.check_values fitting.now }
{
    check_inverse_standard_deviations(fitting)?;
    if !is_valid_baseline(fitting.rig().pose.baseline) {
        return Err(Refusal::Baseline);
    }
    check_points(fitting)?;
    if fitting.count() < MINIMUM_POINTS {
        return Err(Refusal::TooFewPoints);
    }
    check_both_views(fitting)
}

// Row 4, over all points
#[tactic(auto, using(crate::proofs::Parts::scans))]
fn check_inverse_standard_deviations(fitting: &FittingProblem) -> Result<(), Refusal>
    ensures { let p = fitting.now in
        let check = Checks.check_inverse_standard_deviation p.inverse_standard_deviations in
        result ≡ first_refusal_from check 0 (Problems.count p) }
{
    let problem = fitting.problem;
    for (i, x) in problem.inverse_standard_deviations.iter().enumerate() {
        if !views::is_valid_inverse_standard_deviation(*x) {
            return Err(Refusal::InverseStandardDeviation { index: i as u32 });
        }
    }
    Ok(())
}

// Row 5
#[tactic(auto, unfolding(crate::specs::Checks::is_valid_baseline))]
fn is_valid_baseline(baseline: f64) -> bool
    ensures { result ≡ Checks.is_valid_baseline baseline }
{
    numerics::is_finite(baseline) && !(baseline <= numerics::RELATIVE_TOLERANCE)
}

// Row 6, over all points
#[tactic(auto, using(crate::proofs::Parts::scans))]
fn check_points(fitting: &FittingProblem) -> Result<(), Refusal>
    ensures { let p = fitting.now in
        result ≡ first_refusal_from (Checks.check_point p.points) 0 (Problems.count p) }
{
    for index in 0..fitting.count() {
        let point = ProblemPoint { fitting, index };
        if !vectors::all_finite(&point.coordinates()) {
            return Err(Refusal::Point { index });
        }
    }
    Ok(())
}

// Row 8 in view 1, row 8 in view 2, then row 9
#[tactic(auto, unfolding(crate::specs::Checks::check_both_views))]
fn check_both_views(fitting: &FittingProblem) -> Result<(), Refusal>
    ensures { result ≡ Checks.check_both_views fitting.now }
{
    check_observations(fitting, View::First)?;
    check_observations(fitting, View::Second)?;
    check_projections(fitting)
}

// Row 8, over all points in one view
#[tactic(auto, using(crate::proofs::Parts::scans))]
fn check_observations(fitting: &FittingProblem, view: View) -> Result<(), Refusal>
    ensures { let p = fitting.now in
        result ≡ first_refusal_from (Checks.check_observation p view) 0 (Problems.count p) }
{
    for index in 0..fitting.count() {
        let point = ProblemPoint { fitting, index };
        if !vectors::all_finite(&point.observation_numbers(view)) {
            return Err(Refusal::Observation { view, index });
        }
    }
    Ok(())
}

// Row 9, point by point in both views: the loops are left at the first projection that fails.
#[tactic(auto, using(crate::proofs::Parts::scans))]
fn check_projections(fitting: &FittingProblem) -> Result<(), Refusal>
    ensures { let p = fitting.now in
        result ≡ first_refusal_from (Checks.check_projection p) 0 (Problems.count p) }
{
    let mut checked = Ok(());
    'points: for index in 0..fitting.count() {
        let point = ProblemPoint { fitting, index };
        'views: for view in [View::First, View::Second] {
            let projected = correspondences::project(
                fitting.rig(),
                view,
                point.observation_numbers(view),
                point.coordinates(),
            );
            if projected.is_err() {
                checked = Err(Refusal::PointNotProjectable { view, index });
                break 'points;
            }
        }
    }
    checked
}
