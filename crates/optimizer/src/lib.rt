// SPDX-FileCopyrightText: 2026 Pierre Moulon and OpenMVG Rust contributors
// SPDX-License-Identifier: MIT OR Apache-2.0

//! One whole step of the two-view problem over lent memory (`step`), its reduced system
//! (`assembly`), the limit of its pose step (`pose_step`) and its point steps (`point_steps`): from
//! kernel/two_view/optimizer.rs.
#![tactic(auto)]

pub mod assembly;
mod point_steps;
pub mod pose_step;
mod step_result;
mod whole_step;

pub use step_result::StepResult;
pub use whole_step::step;
