//! The methods of `f64` that the Rust calls, as functions of their own: each gives a result for
//! every binary64, and its contract says which (docs/SPECIFICATION.md, "Numbers").
//!
//! Here are the constants, the bit pattern, the absolute value, the reciprocal and the tests for
//! what is finite; `extrema` has the larger and the smaller of two values and the largest of a
//! list, and `vectors` what is asked of a list.
#![tactic(auto)]

pub mod extrema;
pub mod vectors;

/// 64ε = 2 ^ -46, where ε is `f64::EPSILON`: the tolerance relative to a largest entry.
pub const RELATIVE_TOLERANCE: f64 = 1.4210854715202004e-14;

/// 192ε = 3 · 2 ^ -46, of `point_block.rs`: a block with a reciprocal condition number at or below
/// it is weak.
pub const POINT_BLOCK_RCOND_THRESHOLD: f64 = 4.263256414560601e-14;

/// 2 ^ -1022, the smallest normal value, `f64::MIN_POSITIVE`.
pub const MIN_POSITIVE: f64 = f64::MIN_POSITIVE;

mod bits;
mod classify;

pub use bits::{from_bits, to_bits};
pub use classify::{abs, is_finite, is_positive_finite, recip};
