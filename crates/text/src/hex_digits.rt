//! Numbers of 64 bits as capital hexadecimal digits, in ASCII. docs/SPECIFICATION.md, "List".

ghost use Rattle.std.specs.Prelude.{◌≡◌};
ghost use Rattle.text.specs.Hex as Hex;

use std::array;

// The last hexadecimal digit of n
#[tactic(auto, unfolding(crate::specs::Hex::digit))]
fn digit(n: u64) -> u8
    ensures { result ≡ Hex.digit n }
{
    let d = (n % 16) as u8;
    if d < 10 { b'0' + d } else { b'A' + (d - 10) }
}

/// The sixteen hexadecimal digits of n, with the zeros before it, first to last.
pub fn digits(n: u64) -> [u8; 16]
    ensures { result ≡ Hex.digits n }
{
    array::from_fn(|i| digit(n >> (60 - 4 * i)))
}
