//! The helpers on single numbers (docs/SPECIFICATION.md, "Numbers"). Each takes every binary64 and
//! refuses nothing.

ghost use Rattle.std.specs.Prelude.{◌≡◌};
ghost use Rattle.std.specs.Float.{float_is_finite};
ghost use Rattle.std.specs.Float.Ieee as Ieee;
ghost use Rattle.std.specs.Float.{binary64};
ghost use Rattle.numerics.specs.Binary64 as Binary64;
ghost use Rattle.numerics.specs.Classify as Classify;
ghost use Rattle.numerics.specs.Extrema as Extrema;
ghost use Rattle.root.specs.Root as Root;

use numerics::extrema;

/// The correctly rounded square root; NaN of a value below zero.
#[unsafe(no_mangle)]
pub extern "C" fn pixel_step_sqrt(x: f64) -> f64
    ensures { result ≡ Root.sqrt x }
{
    root::sqrt(x)
}

/// The value with its sign cleared, of a zero too.
#[unsafe(no_mangle)]
pub extern "C" fn pixel_step_abs(x: f64) -> f64
    ensures { result ≡ Classify.abs x }
{
    numerics::abs(x)
}

/// Whether the value is neither infinite nor NaN.
#[unsafe(no_mangle)]
pub extern "C" fn pixel_step_is_finite(x: f64) -> bool
    ensures { result ≡ float_is_finite x }
{
    numerics::is_finite(x)
}

/// 1 / x.
#[unsafe(no_mangle)]
pub extern "C" fn pixel_step_recip(x: f64) -> f64
    ensures { result ≡ Binary64.recip x }
{
    numerics::recip(x)
}

/// The larger value; a NaN is passed over, and of unlike zeros it is +0.
#[unsafe(no_mangle)]
pub extern "C" fn pixel_step_max(x: f64, y: f64) -> f64
    ensures { result ≡ Extrema.max x y }
{
    extrema::max(x, y)
}

/// The smaller value; a NaN is passed over, and of unlike zeros it is -0.
#[unsafe(no_mangle)]
pub extern "C" fn pixel_step_min(x: f64, y: f64) -> f64
    ensures { result ≡ Extrema.min x y }
{
    extrema::min(x, y)
}

/// The bit pattern of a value, of a NaN 7FF8000000000000.
#[unsafe(no_mangle)]
pub extern "C" fn pixel_step_to_bits(x: f64) -> u64
    ensures { result ≡ Ieee.to_bits binary64 x }
{
    numerics::to_bits(x)
}

/// The value of a bit pattern; every NaN pattern is the NaN.
#[unsafe(no_mangle)]
pub extern "C" fn pixel_step_from_bits(b: u64) -> f64
    ensures { result ≡ Ieee.of_bits binary64 b }
{
    numerics::from_bits(b)
}
