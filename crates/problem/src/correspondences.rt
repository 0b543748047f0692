// SPDX-FileCopyrightText: 2026 Pierre Moulon and OpenMVG Rust contributors
// SPDX-License-Identifier: MIT OR Apache-2.0

//! The problem that a whole step is lent, and one point of it with what each view saw: the inputs
//! of `refine_impl` in kernel/two_view/optimizer.rs, and `Correspondence` of residual.rs.

ghost use Rattle.std.specs.Prelude.{◌≡◌, ◌<◌};
ghost use Rattle.problem.specs.Problem as Problems;
ghost use Rattle.problem.specs.Checks as Checks;

use linearization::views::Correspondence;
pub use linearization::views::Rig;
use projection::Projection;
use refusal::{Refusal, View};
use std::marker::Model;

/// A two-view problem over lent memory: for n points the coordinates (3n numbers), what each view
/// saw (2n pixel coordinates each) and the inverse standard deviations (n numbers, per pixel). No
/// length is tested yet. In clauses it is the record `Problem` of the lists that the slices hold.
#[derive(Drop)]
pub struct Problem<'a> {
    /// x, y, z of each point, in the frame of camera 1
    pub points: &'a [f64],
    /// x, y of each point in view 1
    pub view1: &'a [f64],
    /// x, y of each point in view 2
    pub view2: &'a [f64],
    /// One number a point
    pub inverse_standard_deviations: &'a [f64],
    /// Both cameras, and the pose of the second
    pub rig: Rig,
    /// λ of the damped normal equations, not tested yet
    pub damping: f64,
}

impl<'a> Model for Problem<'a> {
    ghost use Rattle.problem.specs.Problem.{Problem, problem};

    ghost Value = { Problem };

    ghost view = { λ l. problem l.points.now l.view1.now l.view2.now
        l.inverse_standard_deviations.now l.rig l.damping };
}

/// A problem whose lengths belong to one count of at most 65,535 points: rows 1 and 2 let it
/// through, the length of the point steps apart.
#[derive(Drop)]
pub struct FittingProblem<'a> {
    pub(crate) problem: &'a Problem<'a>,
}

impl<'a> Model for FittingProblem<'a> {
    ghost use Rattle.problem.specs.Problem.{Problem};
    ghost use Rattle.problem.specs.Checks.{HasMatchingLengths};

    ghost Value = { Problem };

    ghost view = { λ f. f.problem.now };

    ghost invariant = { λ f. HasMatchingLengths f.problem.now };
}

/// One point of a problem whose lengths fit
#[derive(Clone, Copy)]
pub struct ProblemPoint<'p, 'a> {
    /// The problem that the point is one of
    pub fitting: &'p FittingProblem<'a>,
    /// Below n
    pub index: u32,
    ghost in_range: { index < Problems.count fitting.now },
}

impl<'a> Problem<'a> {
    /// n, the number of points, where the lengths belong to one count
    pub fn count(&self) -> usize
        ensures { result ≡ Problems.count self.now }
    {
        self.inverse_standard_deviations.len()
    }
}

impl<'a> FittingProblem<'a> {
    /// n, the number of points
    pub fn count(&self) -> u32
        ensures count { result ≡ Problems.count self.now }
        ensures fits { Checks.HasMatchingLengths self.now }
    {
        let problem = self.problem;
        problem.count() as u32
    }

    /// Both cameras, and the pose of the second
    pub fn rig(&self) -> &'a Rig
        ensures { result.now ≡ self.now.rig }
    {
        let problem = self.problem;
        &problem.rig
    }
}

impl<'p, 'a> ProblemPoint<'p, 'a> {
    /// The point's three coordinates
    pub fn coordinates(self) -> [f64; 3]
        ensures { result ≡ Problems.triple self.entry.fitting.now.points self.entry.index }
    {
        let fitting = self.fitting;
        let problem = fitting.problem;
        let points = problem.points;
        let at = 3 * (self.index as usize);
        [points[at], points[at + 1], points[at + 2]]
    }

    /// The part of view 1 or 2 that holds the point's two numbers: all that reads an observation
    /// reads it here.
    pub fn observation(self, view: View) -> &'a [f64]
        ensures { let p = self.entry.fitting.now in
            result.now ≡ Problems.observation p.view1 p.view2 view self.entry.index }
    {
        let fitting = self.fitting;
        let problem = fitting.problem;
        let at = 2 * (self.index as usize);
        match view {
            View::First => &problem.view1[at..at + 2],
            View::Second => &problem.view2[at..at + 2],
        }
    }

    /// The two numbers that a view saw of the point
    pub fn observation_numbers(self, view: View) -> [f64; 2]
        ensures { let p = self.entry.fitting.now in
            result ≡ Problems.observation p.view1 p.view2 view self.entry.index }
    {
        let part = self.observation(view);
        [part[0], part[1]]
    }

    /// The point with what both views saw of it, and its inverse standard deviation
    pub fn correspondence(self) -> Correspondence
        ensures { result ≡ Problems.correspondence_at self.entry.fitting.now self.entry.index }
    {
        let fitting = self.fitting;
        let problem = fitting.problem;
        Correspondence {
            point: self.coordinates(),
            view1: self.observation_numbers(View::First),
            view2: self.observation_numbers(View::Second),
            inverse_standard_deviation: problem.inverse_standard_deviations[self.index as usize],
        }
    }
}

// A point as a view sees it
#[tactic(auto, unfolding(crate::specs::Problem::project))]
pub(crate) fn project(
    rig: &Rig,
    view: View,
    observation: [f64; 2],
    point: [f64; 3],
) -> Result<Projection, Refusal>
    ensures { result ≡ Problems.project rig.now view observation point }
{
    match view {
        View::First => projection::pixel_projection(&rig.camera1, observation, point),
        View::Second => {
            let rotated = projection::rotate(rig.pose.rotation, point);
            let moved = projection::camera_point(rotated, rig.pose.translation);
            projection::pixel_projection(&rig.camera2, observation, moved)
        }
    }
}
