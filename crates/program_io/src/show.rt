//! What the test programs print: numbers as the sixteen capital hexadecimal digits of their bit
//! patterns.

use std::io;

/// Prints a line: the name of a figure, a space and the pattern of its value.
pub fn print_figure(rt: &impl Print, name: &str, x: f64) -> io::Result<()> {
    let pattern = numerics::to_bits(x);
    println!(rt; "{name} {pattern:016X}")
}

/// Prints the end of a line: for each value a space and its pattern.
pub fn print_patterns(rt: &impl Print, values: &[f64]) -> io::Result<()> {
    for x in values {
        let pattern = numerics::to_bits(*x);
        print!(rt; " {pattern:016X}")?;
    }
    println!(rt)
}
