//! The roots of listed patterns (docs/SPECIFICATION.md, "Square root").

use std::io;

/// Prints a line for each line of text: `sqrt`, the pattern that the line is in hexadecimal, and
/// the pattern of its root.
pub fn print(rt: &impl Print, text: &str) -> io::Result<()> {
    for line in text.lines() {
        match u64::from_str_radix(line, 16) {
            Ok(b) => {
                let root = numerics::to_bits(root::sqrt(numerics::from_bits(b)));
                println!(rt; "sqrt {b:016X} {root:016X}")?;
            }
            Err(_) => println!(rt; "{line} is no number in hexadecimal")?,
        }
    }
    Ok(())
}
