//! The whole step, of five points, and the limit of the pose step.

use crate::files::{self, Call, Lengths};
use c_calls::step_calls;
use std::io;
use std::rt::Files;

/// The whole step, or the limit.
#[derive(Clone, Copy)]
pub enum Step {
    Whole,
    Limit,
}

/// Replays the files of the step and of the limit.
pub fn replay(rt: &(impl Files + Print), buffer: &mut [u8]) -> io::Result<()> {
    let whole = Lengths {
        inputs: 70,
        numbers: 27,
        counts: 1,
    };
    files::replay(rt, buffer, "step.txt", Call::Step(Step::Whole), whole)?;
    let limit = Lengths {
        inputs: 5,
        numbers: 5,
        counts: 0,
    };
    files::replay(
        rt,
        buffer,
        "limit_pose_step.txt",
        Call::Step(Step::Limit),
        limit,
    )
}

impl Step {
    /// Makes the call, and returns its code.
    pub fn make(self, x: &[f64; 108], out: &mut [f64; 59], counts: &mut [u16; 3]) -> u64 {
        match self {
            Step::Whole => whole(x, out, counts),
            Step::Limit => step_calls::limit_pose_step(&x[..5], &mut out[..5]),
        }
    }
}

// The steps of the points, then the twelve numbers
fn whole(x: &[f64; 108], out: &mut [f64; 59], counts: &mut [u16; 3]) -> u64 {
    let (point_steps, values) = out.split_at_mut(15);
    step_calls::step(
        &x[..15],
        &x[15..25],
        &x[25..35],
        &x[35..40],
        &x[40..69],
        x[69],
        point_steps,
        &mut values[..12],
        &mut counts[..1],
    )
}
