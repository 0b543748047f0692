// SPDX-FileCopyrightText: 2026 Pierre Moulon and OpenMVG Rust contributors
// SPDX-License-Identifier: MIT OR Apache-2.0

//! The linearization of a point in both views, `linearize_point` of kernel/two_view/schur.rs: its
//! weighted residuals and Jacobians (`views`), and its block of the normal equations, which are the
//! sums of their products (`linearize`). `terms` has the part of a block that the point's step
//! needs.
//!
//! Every function from `tested_block` and `terms_of` down is inlined into the loops over points:
//! what one hands on to the next are arrays, which stay in registers only if no call is left.
#![tactic(auto)]

mod accumulate;
mod jacobians;
mod linearize;
mod loss;
mod terms;
pub mod views;

pub use linearize::{LocalLinearization, TestedBlock, block_of, linearize_point, tested_block};
pub use terms::{PointTerms, terms_of};
