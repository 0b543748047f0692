//! The figures of the point block's factor and of the solve (docs/SPECIFICATION.md, "Worked
//! figures", "Blocks" and "Solve").

use point_block::PointBlockFactor;
use program_io::show;
use std::io;

/// Prints the figures of the factor, then those of the solve.
pub fn print(rt: &impl Print) -> io::Result<()> {
    print_block(rt, "block (4, 1, 1)", 4.0, 1.0, 1.0, 0.0)?;
    print_block_with_last(rt, "block (1, 1, 2^-46)", 0x3D10_0000_0000_0000)?;
    print_block_with_last(rt, "block (1, 1, 2^-44)", 0x3D30_0000_0000_0000)?;
    print_block_with_last(rt, "block (1, 1, 2^-92)", 0x3A30_0000_0000_0000)?;
    print_block_with_last(rt, "block (1, 1, 2^-91)", 0x3A40_0000_0000_0000)?;
    print_block(rt, "block (1e308, 1, 1)", 1e308, 1.0, 1.0, 0.0)?;
    print_block(rt, "block (1, 1, 0)", 1.0, 1.0, 0.0, 0.0)?;
    print_block(rt, "block (1, 1, 0) damped by 1", 1.0, 1.0, 0.0, 1.0)?;
    print_block(rt, "block of zeros", 0.0, 0.0, 0.0, 0.0)?;
    print_block(rt, "block (1, 1, 1) damped by -1", 1.0, 1.0, 1.0, -1.0)?;
    print_block(rt, "block (1, 1, 1) damped by -0", 1.0, 1.0, 1.0, -0.0)?;
    print_solution(rt, "solve by the identity", 1.0)?;
    print_solution(rt, "solve by zeros", 0.0)?;
    print_solution(rt, "solve by minus the identity", -1.0)
}

// The line of the block with the diagonal (1, 1, c), c by its bits, at damping 0
fn print_block_with_last(rt: &impl Print, name: &str, c: u64) -> io::Result<()> {
    print_block(rt, name, 1.0, 1.0, numerics::from_bits(c), 0.0)
}

// A line: the rcond of the block with the diagonal (a, b, c) at a damping, and whether it is weak;
// or the refusal
fn print_block(
    rt: &impl Print,
    name: &str,
    a: f64,
    b: f64,
    c: f64,
    damping: f64,
) -> io::Result<()> {
    match PointBlockFactor::factor_with_rcond([a, 0.0, 0.0, 0.0, b, 0.0, 0.0, 0.0, c], damping) {
        Ok(factor) => {
            let rcond = numerics::to_bits(factor.rcond);
            let is_weak = damping == 0.0 && point_block::is_weak(factor.rcond);
            let weak = if is_weak { " weak" } else { "" };
            println!(rt; "{name}: rcond {rcond:016X}{weak}")
        }
        Err(refusal) => println!(rt; "{name}: {refusal}"),
    }
}

// A line: the solution of (d times the identity) · x = (1, 2, 3, 4, 5), or the refusal
fn print_solution(rt: &impl Print, name: &str, d: f64) -> io::Result<()> {
    let mut a = [0.0; 25];
    a[0] = d;
    a[6] = d;
    a[12] = d;
    a[18] = d;
    a[24] = d;
    print!(rt; "{name}:")?;
    match solver::solve_positive_definite(a, [1.0, 2.0, 3.0, 4.0, 5.0]) {
        Ok(x) => show::print_patterns(rt, &x),
        Err(refusal) => println!(rt; " {refusal}"),
    }
}
