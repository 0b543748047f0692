//! Text in a lent buffer: `Writer` puts one text behind the other, as much of each as fits, and
//! numbers in decimal; `hex_digits` has the digits of a number of 64 bits. docs/SPECIFICATION.md,
//! "List".
#![tactic(auto)]

pub mod hex_digits;

ghost use Rattle.std.specs.Prelude.{◌++◌, ◌==◌, ◌≡◌, ◌≤◌, take};
ghost use Rattle.std.specs.Fmt.{decimal};
ghost use Rattle.std.specs.List.{prefix_len};
ghost use Rattle.text.specs.Text as Text;

/// Puts a text into `out` from the offset `at` on, as much of it as fits, and gives the offset
/// behind it. Where `at` lies behind the end of `out` nothing is put.
#[tactic(auto, using(crate::proofs::Puts::put_of, crate::proofs::Puts::put_beyond))]
pub fn put(out: &mut [u8], at: usize, text: &[u8]) -> usize
    ensures { Text.PutsText text.now at out.old result out.new }
{
    if out.len() < at {
        return at;
    }
    let n = text.len().min(out.len() - at);
    out[at..at + n].copy_from_slice(&text[..n]);
    at + n
}

/// A lent buffer, and the place in it where the next text goes.
#[derive(Drop)]
pub struct Writer<'a> {
    /// The buffer, in bytes.
    pub out: &'a mut [u8],
    /// The offset of the next text, in bytes.
    pub at: usize,
}

impl<'a> Writer<'a> {
    /// A writer at the beginning of a buffer.
    pub fn new(out: &'a mut [u8]) -> Writer<'a>
        ensures { (result.out ≡ out.entry) × (result.at ≡ 0) }
    {
        Writer { out, at: 0 }
    }

    /// Puts a text at the place, as much of it as fits, and moves the place behind it.
    #[tactic(auto, unfolding(crate::specs::Text::AppendsText))]
    pub fn put(&mut self, text: &[u8])
        ensures { Text.AppendsText text.now self.old self.new }
    {
        self.at = put(self.out, self.at, text);
    }

    /// Puts a number in decimal, with no leading zero; zero is one digit.
    #[tactic(auto, using(crate::proofs::Puts::tail, crate::proofs::Decimals::behind_zeros_of_ten))]
    pub fn put_decimal(&mut self, n: u32)
        ensures { Text.AppendsText (decimal n) self.old self.new }
    {
        let digits = ten_digits(n);
        let start = leading_zeros(&digits);
        self.put(&digits[start..]);
    }

    /// Puts a number in decimal, as `put_decimal` does, and the text `after` behind it.
    #[tactic(auto, using(crate::proofs::Wrote::wrote_both))]
    pub fn put_decimal_then(&mut self, n: u32, after: &[u8])
        ensures { Text.AppendsText (decimal n ++ after.now) self.old self.new }
    {
        self.put_decimal(n);
        self.put(after);
    }

    /// Puts three texts, one behind the other.
    #[tactic(auto, using(crate::proofs::Wrote::wrote_both))]
    pub fn put_three(&mut self, a: &[u8], b: &[u8], c: &[u8])
        ensures { Text.AppendsText (a.now ++ b.now ++ c.now) self.old self.new }
    {
        self.put(a);
        self.put(b);
        self.put(c);
    }
}

// The last decimal digit of n
fn digit(n: u32) -> u8
    ensures { result ≡ Text.digit n }
{
    b'0' + (n % 10) as u8
}

// The ten digits that a number of 32 bits has at most, with the zeros before it
fn ten_digits(n: u32) -> [u8; 10]
    ensures { result ≡ Text.ten_digits n }
{
    [
        digit(n / 1_000_000_000),
        digit(n / 100_000_000),
        digit(n / 10_000_000),
        digit(n / 1_000_000),
        digit(n / 100_000),
        digit(n / 10_000),
        digit(n / 1000),
        digit(n / 100),
        digit(n / 10),
        digit(n),
    ]
}

// How many zeros ten digits begin with, the last digit apart
fn leading_zeros(digits: &[u8; 10]) -> usize
    ensures { (result ≤ 9) × (result ≡ prefix_len (λ d. d == 48) (take 9 digits.now)) }
{
    digits[..9].iter().take_while(|d| **d == b'0').count()
}
