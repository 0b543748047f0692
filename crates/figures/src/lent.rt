//! The same blocks through both forms of `add`: the system lent and changed in place, and the
//! system by value. Each line has a figure of the one, then of the other, as patterns of sixteen
//! capital digits: the two columns have to be equal.

ghost use Rattle.std.specs.Prelude.{◌≡◌};
ghost use Rattle.std.specs.Result.{result_err};
ghost use Rattle.schur.specs.ReducedAdd as ReducedAdd;

use linearization::LocalLinearization;
use linearization::views::{Correspondence, RelativePose, Rig};
use projection::PinholeCamera;
use refusal::Refusal;
use schur::reduced_system::ReducedSystem;
use std::io;

// The system that each form leaves
#[derive(Clone, Copy)]
struct Both {
    lent: ReducedSystem,
    by_value: ReducedSystem,
}

/// Prints the refusals of seven adds by both forms, then both systems.
pub fn print(rt: &impl Print) -> io::Result<()> {
    let adds = [
        ([0.0, 0.0, 2.0], 0.0),
        ([1.0, 0.0, 2.0], 0.0),
        ([-1.0, 0.5, 4.0], 0.0),
        ([0.5, -1.0, 2.0], -1.0),
        ([0.5, -1.0, 2.0], 0.5),
        ([0.25, 0.25, 1.0], 0.0),
        ([1.0, 1.0, 8.0], 0.0),
    ];
    let mut both = Both {
        lent: ReducedSystem::new(),
        by_value: ReducedSystem::new(),
    };
    for (point, damping) in adds {
        match block(point) {
            Ok(local) => both = add_to_both(rt, both, local, damping)?,
            Err(refusal) => println!(rt; "{refusal}")?,
        }
    }
    print_both(rt, both)
}

// The block of a point before two cameras of which the second is turned about their common axis:
// on the axis no block factors.
fn block(point: [f64; 3]) -> Result<LocalLinearization, Refusal> {
    let [x, y, z] = point;
    let camera = PinholeCamera {
        fx: 800.0,
        fy: 600.0,
        cx: 320.0,
        cy: 240.0,
        skew: 0.5,
    };
    let pose = RelativePose {
        rotation: [0.6, -0.8, 0.0, 0.8, 0.6, 0.0, 0.0, 0.0, 1.0],
        translation: [0.0, 0.0, 1.0],
        translation_basis: [1.0, 0.0, 0.0, 0.0, 1.0, 0.0],
        baseline: 0.25,
    };
    let correspondence = Correspondence {
        point,
        view1: [320.0 + 800.0 * x / z, 240.5 + 600.0 * y / z],
        view2: [320.0 + 500.0 * x / z, 240.0 + 500.0 * y / z],
        inverse_standard_deviation: 2.0,
    };
    let rig = Rig {
        camera1: camera,
        camera2: camera,
        pose,
    };
    linearization::linearize_point(&rig, correspondence)
}

// Adds a block to both systems, and prints a line: the two refusals' numbers, 0 where there is
// none.
fn add_to_both(
    rt: &impl Print,
    both: Both,
    local: LocalLinearization,
    damping: f64,
) -> io::Result<Both> {
    let (lent, one) = add_in_place(both.lent, local, damping);
    let two = schur::add(both.by_value, local, damping);
    print_pair(rt, "refusal", row(one.err()), row(two.err()))?;
    Ok(Both {
        lent,
        by_value: two.unwrap_or(both.by_value),
    })
}

// The form of `add` that changes a lent system, as a function of the system
fn add_in_place(
    mut system: ReducedSystem,
    local: LocalLinearization,
    damping: f64,
) -> (ReducedSystem, Result<(), Refusal>)
    ensures system { result.0
        ≡ ReducedAdd.system_after system (ReducedAdd.add system local damping) }
    ensures refusal { result_err result.1 ≡ result_err (ReducedAdd.add system local damping) }
{
    let outcome = schur::add_to(&mut system, local, damping);
    (system, outcome)
}

// The number of a refusal's row, 0 of none
fn row(refusal: Option<Refusal>) -> u64 {
    match refusal {
        Some(refusal) => u64::from(refusal.row().number),
        None => 0,
    }
}

fn print_both(rt: &impl Print, both: Both) -> io::Result<()> {
    let a = both.lent;
    let b = both.by_value;
    print_hessians(rt, a, b)?;
    print_vectors(rt, a, b)?;
    print_numbers(rt, "cost", a.cost, b.cost)?;
    print_numbers(
        rt,
        "squared residual",
        a.squared_residual,
        b.squared_residual,
    )?;
    print_numbers(
        rt,
        "point reduction",
        a.point_model_reduction,
        b.point_model_reduction,
    )?;
    print_numbers(
        rt,
        "point gradient norm",
        a.scaled_point_gradient_inf_norm,
        b.scaled_point_gradient_inf_norm,
    )?;
    print_numbers(
        rt,
        "smallest rcond",
        a.minimum_point_rcond,
        b.minimum_point_rcond,
    )?;
    print_pair(
        rt,
        "weak points",
        a.weak_point_count as u64,
        b.weak_point_count as u64,
    )?;
    print_pair(rt, "blocks", a.block_count as u64, b.block_count as u64)?;
    print_pair(rt, "valid", a.valid as u64, b.valid as u64)
}

fn print_hessians(rt: &impl Print, a: ReducedSystem, b: ReducedSystem) -> io::Result<()> {
    for (x, y) in a.hessian.iter().zip(&b.hessian) {
        print_numbers(rt, "hessian", *x, *y)?;
    }
    Ok(())
}

fn print_vectors(rt: &impl Print, a: ReducedSystem, b: ReducedSystem) -> io::Result<()> {
    // by index, as three pairs of arrays are printed entry by entry
    for i in 0..5 {
        print_numbers(rt, "gradient", a.gradient[i], b.gradient[i])?;
        print_numbers(
            rt,
            "full pose gradient",
            a.full_pose_gradient[i],
            b.full_pose_gradient[i],
        )?;
        print_numbers(rt, "pose diagonal", a.pose_diagonal[i], b.pose_diagonal[i])?;
    }
    Ok(())
}

fn print_numbers(rt: &impl Print, name: &str, a: f64, b: f64) -> io::Result<()> {
    print_pair(rt, name, numerics::to_bits(a), numerics::to_bits(b))
}

// A line: a name, the figure of the lent system, and that of the system by value
fn print_pair(rt: &impl Print, name: &str, a: u64, b: u64) -> io::Result<()> {
    println!(rt; "{name} {a:016X} {b:016X}")
}
