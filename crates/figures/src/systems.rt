//! The figures of the block maker and of the system: the sample (docs/SPECIFICATION.md, "List"),
//! and the counts and norms of "Worked figures", "System".

use linearization::LocalLinearization;
use linearization::views::{Correspondence, RelativePose, Rig};
use point_block::point_damping::ValidDamping;
use problem::letters;
use program_io::show;
use projection::PinholeCamera;
use refusal::Refusal;
use schur::reduced_system::ReducedSystem;
use std::io;

/// Prints the sample, then the figures of the system.
pub fn print(rt: &impl Print) -> io::Result<()> {
    print_sample(rt)?;
    print_add(rt, "add with weak 2 of 1", 2, 1, 0.0)?;
    print_add(rt, "add with weak 2 of 1, damping -1", 2, 1, -1.0)?;
    print_add(rt, "add with 65,535 blocks", 0, 65535, 0.0)?;
    print_add(rt, "add with 65,534 blocks", 0, 65534, 0.0)?;
    print_add(rt, "add at damping -1", 0, 0, -1.0)?;
    print_predicted_reduction(rt, "predicted reduction at damping 1", 1.0)?;
    print_predicted_reduction(rt, "predicted reduction at damping -1", -1.0)?;
    print_gradient_norm(rt, "gradient norm of zeros", 0.0, 0.0)?;
    print_gradient_norm(rt, "gradient norm by a diagonal of zeros", 1.0, 0.0)?;
    print_gradient_norm(
        rt,
        "gradient norm by an infinite diagonal",
        1.0,
        numerics::from_bits(0x7FF0_0000_0000_0000),
    )?;
    print_gradient_norm(rt, "gradient norm by a diagonal of 4", 1.0, 4.0)?;
    print_gradient_norm(rt, "gradient norm of a NaN", f64::NAN, 4.0)?;
    print_damped_entry(rt)
}

// The lines of the sample: its five points, each with its letter, then the sum
fn print_sample(rt: &impl Print) -> io::Result<()> {
    let points = [
        (0.0, 0.0, 1.0),
        (1.0, 0.0, 0.0),
        (-1.0, 0.0, 0.0),
        (0.0, 1.0, 0.0),
        (0.0, -1.0, 0.0),
    ];
    let mut system = ReducedSystem::new();
    for (index, (x, y, off)) in points.into_iter().enumerate() {
        print!(rt; "sample p {index}")?;
        match block_at(x, y, off) {
            Ok(block) => system = add_block(rt, system, block)?,
            Err(refusal) => println!(rt; " {refusal}")?,
        }
    }
    match system.finish_damping(0.0) {
        Ok(last) => print_sum(rt, last),
        Err(refusal) => println!(rt; "sample sum {refusal}"),
    }
}

// Prints the end of a line, the block's letter and the refusal of `add`, and gives the next system.
fn add_block(
    rt: &impl Print,
    system: ReducedSystem,
    block: LocalLinearization,
) -> io::Result<ReducedSystem> {
    if let Ok(damping) = ValidDamping::new(0.0) {
        let letter = char::from(letters::letter_of(block, damping));
        print!(rt; " {letter}")?;
    }
    let next = schur::add(system, block, 0.0);
    print_end(rt, next.err())?;
    Ok(next.unwrap_or(system))
}

// The last line of the sample
fn print_sum(rt: &impl Print, last: ReducedSystem) -> io::Result<()> {
    let cost = numerics::to_bits(last.cost);
    let squared_residual = numerics::to_bits(last.squared_residual);
    let weak = last.weak_point_count;
    let valid = if last.is_valid() { 'y' } else { 'n' };
    println!(rt; "sample sum {cost:016X} {squared_residual:016X} {weak} {valid}")
}

// The block of (x, y, 1), observed without error but for view 1, `off` too high
fn block_at(x: f64, y: f64, off: f64) -> Result<LocalLinearization, Refusal> {
    let camera = PinholeCamera {
        fx: 1.0,
        fy: 1.0,
        cx: 0.0,
        cy: 0.0,
        skew: 0.0,
    };
    let pose = RelativePose {
        rotation: [1.0, 0.0, 0.0, 0.0, 1.0, 0.0, 0.0, 0.0, 1.0],
        translation: [0.0, 0.0, 1.0],
        translation_basis: [1.0, 0.0, 0.0, 0.0, 1.0, 0.0],
        baseline: 1.0,
    };
    let correspondence = Correspondence {
        point: [x, y, 1.0],
        view1: [x, y + off],
        view2: [0.5 * x, 0.5 * y],
        inverse_standard_deviation: 1.0,
    };
    let rig = Rig {
        camera1: camera,
        camera2: camera,
        pose,
    };
    linearization::linearize_point(&rig, correspondence)
}

// The line of `add` on a system with these counts: the counts that it leaves, and its refusal
fn print_add(rt: &impl Print, name: &str, weak: u16, blocks: u16, damping: f64) -> io::Result<()> {
    let block = match block_at(1.0, 0.0, 0.0) {
        Ok(block) => block,
        Err(refusal) => return println!(rt; "{name}: {refusal}"),
    };
    let mut system = ReducedSystem::new();
    system.weak_point_count = weak;
    system.block_count = blocks;
    let next = schur::add(system, block, damping);
    let left = next.unwrap_or(system);
    let (weak, blocks) = (left.weak_point_count, left.block_count);
    print!(rt; "{name}: {weak} {blocks}")?;
    print_end(rt, next.err())
}

// The line of the reduction that is predicted for a step of zeros, +0 beside a refusal
fn print_predicted_reduction(rt: &impl Print, name: &str, damping: f64) -> io::Result<()> {
    let outcome = ReducedSystem::new().predicted_reduction([0.0; 5], damping, 3.0);
    let reduction = numerics::to_bits(outcome.unwrap_or(0.0));
    print!(rt; "{name}: {reduction:016X}")?;
    print_end(rt, outcome.err())
}

// The end of a line: the refusal, where there is one
fn print_end(rt: &impl Print, refusal: Option<Refusal>) -> io::Result<()> {
    match refusal {
        Some(refusal) => println!(rt; " {refusal}"),
        None => println!(rt),
    }
}

// The line of the norm of a system with one gradient entry and one entry of the diagonal
fn print_gradient_norm(
    rt: &impl Print,
    name: &str,
    gradient: f64,
    diagonal: f64,
) -> io::Result<()> {
    let mut system = ReducedSystem::new();
    let g = [gradient, 0.0, 0.0, 0.0, 0.0];
    let d = [diagonal, 0.0, 0.0, 0.0, 0.0];
    system.full_pose_gradient = g;
    system.pose_diagonal = d;
    show::print_figure(rt, name, system.scaled_gradient_inf_norm())
}

// The line of what damping adds to a new system: 64ε · the smallest normal number
fn print_damped_entry(rt: &impl Print) -> io::Result<()> {
    match ReducedSystem::new().finish_damping(1.0) {
        Ok(system) => show::print_figure(rt, "damping without curvature", system.hessian[24]),
        Err(refusal) => println!(rt; "damping without curvature {refusal}"),
    }
}
