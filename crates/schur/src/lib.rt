// SPDX-FileCopyrightText: 2026 Pierre Moulon and OpenMVG Rust contributors
// SPDX-License-Identifier: MIT OR Apache-2.0

//! The reduced system of the two-view problem, kernel/two_view/schur.rs: `reduced_add` takes a
//! block in, with its point eliminated; `point_step` gives how that point moves with a step of the
//! pose.
//!
//! Both are inlined into the loops over points, with all that they call for each point, so that a
//! block, its factor and the system are not copied from call to call.
#![tactic(auto)]

mod elimination;
mod gradient_norm;
pub mod point_step;
mod pose_model;
mod reduced_add;
pub mod reduced_system;

pub use reduced_add::{add, add_to, take_in};
