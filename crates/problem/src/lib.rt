// SPDX-FileCopyrightText: 2026 Pierre Moulon and OpenMVG Rust contributors
// SPDX-License-Identifier: MIT OR Apache-2.0

//! The two-view problem that a whole step is lent (`correspondences`), its rows 1 to 9 (`checks`),
//! and the letter that a list gives each of its points (`letters`). From
//! kernel/two_view/optimizer.rs and residual.rs.
#![tactic(auto)]

pub mod checks;
pub mod correspondences;
pub mod letters;
