//! Numbers by exact arithmetic, with no pattern read or written.

/// The value that a text states: `nan`; or a sign, and behind it `inf` or a whole number below 2^53
/// and the power of two that it is multiplied by. None of a text out of form.
pub fn read(text: &str) -> Option<f64> {
    if text == "nan" {
        return Some(f64::NAN);
    }
    if let Some(size) = text.strip_prefix("+ ") {
        return magnitude(size);
    }
    let size = magnitude(text.strip_prefix("- ")?)?;
    Some(-size)
}

/// Whether two numbers have the same value, zeros with their signs, or both are NaN.
pub fn are_same(x: f64, y: f64) -> bool {
    (x.is_nan() && y.is_nan()) || (x == y && 1.0 / x == 1.0 / y)
}

// The value of a text without its sign
fn magnitude(text: &str) -> Option<f64> {
    if text == "inf" {
        return Some(f64::INFINITY);
    }
    let (digits, power) = text.split_once(' ')?;
    let digits: u64 = digits.parse().ok()?;
    let power: i32 = power.parse().ok()?;
    if digits >= 0x20_0000_0000_0000 {
        return None;
    }
    Some(times_power_of_two(digits as f64, power))
}

// The product with a power of two, which is exact where it is a number of the format
fn times_power_of_two(x: f64, power: i32) -> f64 {
    let factor = if power < 0 { 0.5 } else { 2.0 };
    let mut product = x;
    for _ in 0..power.unsigned_abs() {
        product *= factor;
    }
    product
}
