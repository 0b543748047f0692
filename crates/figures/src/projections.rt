//! The figures of the projection (docs/SPECIFICATION.md, "Worked figures", "Projection").

use program_io::show;
use projection::{PinholeCamera, Projection};
use refusal::Refusal;
use std::io;

/// Prints the figures of the projection.
pub fn print(rt: &impl Print) -> io::Result<()> {
    let camera = PinholeCamera {
        fx: 2.0,
        fy: 2.0,
        cx: 1.0,
        cy: 1.0,
        skew: 0.0,
    };
    print_projection(
        rt,
        "point (1, 2, 4)",
        projection::pixel_projection(&camera, [1.5, 1.0], [1.0, 2.0, 4.0]),
    )?;
    print_in_unit_camera(
        rt,
        "point (1, 0, 2^-46)",
        [1.0, 0.0, numerics::from_bits(0x3D10_0000_0000_0000)],
    )?;
    print_in_unit_camera(
        rt,
        "point (1, 0, next above 2^-46)",
        [1.0, 0.0, numerics::from_bits(0x3D10_0000_0000_0001)],
    )?;
    print_in_unit_camera(rt, "point (0, 0, 1e-200)", [0.0, 0.0, 1e-200])?;
    print_in_unit_camera(rt, "point (0, 0, 0)", [0.0, 0.0, 0.0])?;
    print_in_unit_camera(
        rt,
        "point (0, 0, infinity)",
        [0.0, 0.0, numerics::from_bits(0x7FF0_0000_0000_0000)],
    )?;
    print_in_unit_camera(
        rt,
        "point (NaN, 0, 1)",
        [numerics::from_bits(0x7FF8_0000_0000_0000), 0.0, 1.0],
    )
}

// The line of a point in the camera (1, 1, 0, 0, 0), observed at (0, 0)
fn print_in_unit_camera(rt: &impl Print, name: &str, point: [f64; 3]) -> io::Result<()> {
    let camera = PinholeCamera {
        fx: 1.0,
        fy: 1.0,
        cx: 0.0,
        cy: 0.0,
        skew: 0.0,
    };
    print_projection(
        rt,
        name,
        projection::pixel_projection(&camera, [0.0, 0.0], point),
    )
}

// A line: residual and Jacobian, or the refusal
fn print_projection(
    rt: &impl Print,
    name: &str,
    projection: Result<Projection, Refusal>,
) -> io::Result<()> {
    match projection {
        Ok(p) => {
            let [x, y] = p.residual;
            let (x, y) = (numerics::to_bits(x), numerics::to_bits(y));
            print!(rt; "{name}: residual {x:016X} {y:016X} jacobian")?;
            show::print_patterns(rt, &p.jacobian)
        }
        Err(refusal) => println!(rt; "{name}: {refusal}"),
    }
}
