//! The calls on a point.

use crate::files::{self, Call, Lengths};
use c_calls::block_calls;
use std::io;
use std::rt::Files;

/// A call on a point.
#[derive(Clone, Copy)]
pub enum Point {
    Projection,
    Linearization,
    Step,
}

/// Replays the files of the calls on a point.
pub fn replay(rt: &(impl Files + Print), buffer: &mut [u8]) -> io::Result<()> {
    let calls = [
        ("pixel_projection.txt", Point::Projection, 10, 8),
        ("linearize_point.txt", Point::Linearization, 37, 59),
        ("point_step_with_damping_norm.txt", Point::Step, 65, 4),
    ];
    for (file, call, inputs, numbers) in calls {
        let lengths = Lengths {
            inputs,
            numbers,
            counts: 0,
        };
        files::replay(rt, buffer, file, Call::Point(call), lengths)?;
    }
    Ok(())
}

impl Point {
    /// Makes the call, and returns its code.
    pub fn make(self, x: &[f64; 108], out: &mut [f64; 59]) -> u64 {
        match self {
            Point::Projection => {
                block_calls::pixel_projection(&x[..5], &x[5..7], &x[7..10], &mut out[..8])
            }
            Point::Linearization => block_calls::linearize_point(&x[..29], &x[29..37], out),
            Point::Step => block_calls::point_step_with_damping_norm(
                &x[..59],
                x[59],
                &x[60..65],
                &mut out[..4],
            ),
        }
    }
}
