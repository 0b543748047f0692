//! The C interface: each public call over numbers and lent slices, proved like all others
//! (docs/SPECIFICATION.md, "C interface"). `include/pixel_step.h` declares them. A slice passes as
//! a pointer and then a length.
//!
//! A call with an `out`, or with a system that it changes, returns 0 and writes its result there,
//! or returns the code of a refusal (number + 256 · view + 65,536 · index) and writes nothing. A
//! length other than the one that the call's comment names is row 1, before all other rows.
#![tactic(auto)]

pub mod blocks;
pub mod numbers;
pub mod point_blocks;
pub mod projections;
pub mod records;
pub mod solvers;
pub mod steps;
pub mod systems;
