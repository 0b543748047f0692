//! The functions on single numbers.

use crate::files::{self, Call, Lengths};
use numerics::extrema;
use std::io;
use std::rt::Files;

/// A function on single numbers.
#[derive(Clone, Copy)]
pub enum Number {
    Sqrt,
    Abs,
    Recip,
    IsFinite,
    Max,
    Min,
    ToBits,
    FromBits,
}

/// Replays the files of the functions on single numbers.
pub fn replay(rt: &(impl Files + Print), buffer: &mut [u8]) -> io::Result<()> {
    let calls = [
        ("sqrt.txt", Number::Sqrt, 1),
        ("abs.txt", Number::Abs, 1),
        ("recip.txt", Number::Recip, 1),
        ("is_finite.txt", Number::IsFinite, 1),
        ("max.txt", Number::Max, 2),
        ("min.txt", Number::Min, 2),
        ("to_bits.txt", Number::ToBits, 1),
        ("from_bits.txt", Number::FromBits, 1),
        ("faulty_value.txt", Number::FromBits, 1),
    ];
    for (file, call, inputs) in calls {
        let lengths = Lengths {
            inputs,
            numbers: 1,
            counts: 0,
        };
        files::replay(rt, buffer, file, Call::Number(call), lengths)?;
    }
    Ok(())
}

impl Number {
    /// Calls the function, and returns 0, as none refuses.
    pub fn make(self, x: &[f64; 108], out: &mut [f64; 59]) -> u64 {
        out[0] = match self {
            Number::Sqrt => root::sqrt(x[0]),
            Number::Abs => numerics::abs(x[0]),
            Number::Recip => numerics::recip(x[0]),
            Number::IsFinite => numerics::from_bits(u64::from(numerics::is_finite(x[0]))),
            Number::Max => extrema::max(x[0], x[1]),
            Number::Min => extrema::min(x[0], x[1]),
            // The comparison reads every number by `to_bits`.
            Number::ToBits => x[0],
            // The line's reader made the number by `from_bits`.
            Number::FromBits => x[0],
        };
        0
    }
}
