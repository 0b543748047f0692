//! A binary64 and its bit pattern, both ways, for every value and every pattern.

ghost use Rattle.std.specs.Prelude.{◌≡◌};
ghost use Rattle.std.specs.Float.Ieee as Ieee;
ghost use Rattle.std.specs.Float.{binary64};

/// The bit pattern of x, `f64::to_bits`. Of a NaN it is always 7FF8000000000000: a NaN has no sign
/// and no payload here (docs/SPECIFICATION.md, "Numbers").
#[tactic(auto, using(crate::proofs::Specials::nan_of_is_nan, crate::proofs::Specials::nan_pattern))]
pub fn to_bits(x: f64) -> u64
    ensures { result ≡ Ieee.to_bits binary64 x }
{
    if x.is_nan() {
        return 0x7ff8_0000_0000_0000;
    }
    f64::to_bits(x)
}

/// The value with the bit pattern b, `f64::from_bits`. Every pattern of a NaN gives the NaN.
#[tactic(auto, using(crate::proofs::Specials::nan_of_pattern, crate::proofs::Specials::nan_of_bits, std::proofs::lemmas::Float::not_nan_f64_bits))]
pub fn from_bits(b: u64) -> f64
    ensures { result ≡ Ieee.of_bits binary64 b }
{
    if 0x7ff0_0000_0000_0000 < b % 0x8000_0000_0000_0000 {
        return f64::NAN;
    }
    f64::from_bits(b)
}
