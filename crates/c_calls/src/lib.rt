// SPDX-FileCopyrightText: 2026 Pierre Moulon and OpenMVG Rust contributors
// SPDX-License-Identifier: MIT OR Apache-2.0

//! The calls of the C interface over numbers and lent slices, each with its outcome for slices of
//! every length (docs/SPECIFICATION.md, "C interface"). `pixel_step` exports them under their C
//! names.
#![tactic(auto)]

mod adds_over_c;
pub mod block_calls;
mod layout;
pub mod matrix_calls;
mod outcomes;
mod slices;
pub mod step_calls;
pub mod system_calls;

pub use adds_over_c::{every_list_over_c, every_number_beside_a_refusal_is_zero};
