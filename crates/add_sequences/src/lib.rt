// SPDX-FileCopyrightText: 2026 Pierre Moulon and OpenMVG Rust contributors
// SPDX-License-Identifier: MIT OR Apache-2.0

//! Lists of calls of `add` of kernel/two_view/schur.rs: a new system takes blocks in, one after the
//! other. The call is `schur::add`; here is what holds of every list of them.
//! docs/SPECIFICATION.md, "Sequences of adds".
#![tactic(auto)]

ghost use Rattle.add_sequences.specs.Claim as Claim;

/// What holds of every list of calls of `add` from a new system, at every valid damping: what each
/// call answers; how many blocks are taken in, how many of them are weak, and whether all factor;
/// what the sums are, and that further calls never lower the costs; that only blocks that factor
/// reach the equations, and that a refused call leaves no trace. It computes nothing.
pub fn every_list_of_adds()
    ensures { Claim.EveryListOfAdds }
{}
