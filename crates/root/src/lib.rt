//! The square root of IEEE 754, from bits and whole numbers alone.
//!
//! The digits of x are scaled to a d of 53 or 54 of them with an even power of two beside it; the
//! root of d * 2 ^ 52 to the nearest whole number then has the 53 digits of the result. A
//! polynomial from a table guesses it, and a test by its square accepts it or has it searched for:
//! there is no division, and nothing to know of the table. docs/SPECIFICATION.md, "Square root".
#![tactic(auto)]

mod table;

ghost use Rattle.std.specs.Prelude.{◌≡◌, ◌+◌, ◌*◌, ◌/◌, ◌^◌, ◌≤◌, ◌<◌, IsTrue};
ghost use Rattle.std.specs.Float.Ieee as Ieee;
ghost use Rattle.std.specs.Float.{binary64};
ghost use Rattle.numerics.specs.Binary64.{zero};
ghost use Rattle.std.specs.Float.{float_is_finite, ◌<ᶠ◌};
ghost use Rattle.root.specs.Root as Root;
ghost use Rattle.root.specs.Root.{IsCorrectlyRounded};
ghost use Rattle.root.specs.Whole.{IsNearestRoot};

use table::ROWS;

// The pattern of +∞
const INFINITY: u64 = 0x7ff0_0000_0000_0000;

// 2 ^ 52: what the leading digit and the exponent's field count for
const LEAD: u64 = 0x10_0000_0000_0000;

/// √x, `f64::sqrt`. Where 0 < x < ∞ it is the binary64 nearest to the exact root, as IEEE 754 asks.
/// A zero of either sign, +∞ and NaN are their own roots; what lies below zero gives NaN.
/// docs/SPECIFICATION.md, "Square root".
// Callers take many roots, and what is inlined here is long: so they share it.
#[inline(never)]
pub fn sqrt(x: f64) -> f64
    ensures result { result ≡ Root.sqrt x }
    ensures nearest { IsTrue (float_is_finite x) → zero <ᶠ x → IsCorrectlyRounded x result }
{
    if f64::MIN_POSITIVE <= x {
        let b = f64::to_bits(x);
        if b < INFINITY {
            let root = guess(b);
            let power = b / LEAD + 1021;
            if is_nearest(radicand(b % LEAD + LEAD, power), root) {
                return f64::from_bits(power / 2 * LEAD + root);
            }
        }
    }
    sqrt_by_search(x)
}

// `sqrt` of any value, anew. Few come here, and inlined it would take registers from `sqrt`.
#[cold]
#[inline(never)]
fn sqrt_by_search(x: f64) -> f64
    ensures { result ≡ Root.sqrt x }
{
    if 0.0 < x {
        let b = f64::to_bits(x);
        if b < INFINITY {
            return f64::from_bits(root_of_pattern(b));
        }
        return x;
    }
    if x < 0.0 { f64::NAN } else { x }
}

// The pattern of the root of the value with the pattern b, which is finite and above zero.
fn root_of_pattern(b: u64) -> u64
    requires { (0 < b) × (b < 0x7ff0_0000_0000_0000) }
    ensures { result ≡ Ieee.to_bits binary64 (Root.sqrt (Ieee.of_bits binary64 b)) }
{
    if b < LEAD {
        let shift = u64::leading_zeros(b) - 11;
        root_of_digits(b << shift, 1022 - shift as u64)
    } else {
        root_of_digits(b % LEAD + LEAD, b / LEAD + 1021)
    }
}

// The pattern of √(m * 2 ^ (power + 52)) units of 2 ^ -1074, where m has 53 digits.
fn root_of_digits(m: u64, power: u64) -> u64
    requires { (2 ^ 52 ≤ m) × (m < 2 ^ 53) × (power < 4000) }
    ensures { result ≡ Ieee.to_bits binary64 (Root.nearest_root (m * 2 ^ (power + 52))) }
{
    power / 2 * LEAD + search(radicand(m, power), guess(power * LEAD + m))
}

// What the root is taken of: m * 2 ^ (power + 52) without an even power of two, so that 105 or 106
// digits are left.
fn radicand(m: u64, power: u64) -> u128
    requires { (2 ^ 52 ≤ m) × (m < 2 ^ 53) }
    ensures low { 2 ^ 104 ≤ result }
    ensures high { result < 2 ^ 106 }
    ensures same { m * 2 ^ (power + 52) ≡ result * 2 ^ (2 * (power / 2)) }
{
    let d = if power % 2 == 0 { m } else { 2 * m };
    d as u128 * LEAD as u128
}

// Both comparisons of `IsNearestRoot` in one: where root * root is not below n + root, the
// difference wraps to more than any 2 * root.
fn is_nearest(n: u128, root: u64) -> bool
    requires { (0 < n) × (n < 2 ^ 106) }
    ensures nearest { IsTrue result → IsNearestRoot n root }
    ensures each { IsNearestRoot n root → IsTrue result }
{
    let root = root as u128;
    (n + root - 1).wrapping_sub(root * root) < 2 * root
}

// The whole number nearest to the root of n, by steps up and then down from any number.
fn search(n: u128, start: u64) -> u64
    requires { (0 < n) × (n < 2 ^ 106) }
    ensures { IsNearestRoot n result }
{
    let mut root = start as u128;
    while root * root + root < n {
        root += 1;
    }
    while n + root <= root * root {
        root -= 1;
    }
    root as u64
}

// The polynomial of the row that the last digit of the exponent and the 7 digits behind it choose,
// at the fraction u that the digits behind those are. It promises nothing: its arithmetic wraps.
// Its terms are paired so that few products wait for one another. Inlined into `sqrt`, though the
// search uses it too.
#[inline(always)]
fn guess(pattern: u64) -> u64 {
    let row = &ROWS[(pattern >> 45) as usize % 256];
    let u = pattern << 19;
    let square = high(u, u);
    let bend = row.c2.wrapping_sub(high(row.c3, u));
    let rest = (row.c4 as u64).wrapping_sub(high(row.c5 as u64, u));
    let line = row.c0.wrapping_add(high(row.c1, u));
    line.wrapping_sub(high(bend, square))
        .wrapping_sub(high(rest, high(square, square)))
        >> 10
}

// x * y / 2 ^ 64: a product of x and the fraction y / 2 ^ 64
fn high(x: u64, y: u64) -> u64 {
    (x as u128 * y as u128 >> 64) as u64
}
