//! The calls on matrices.

use crate::files::{self, Call, Lengths};
use crate::memory::{self, Inputs};
use c_calls::matrix_calls;
use std::io;
use std::rt::Files;

/// A call on matrices.
#[derive(Clone, Copy)]
pub enum Matrix {
    DampingDiagonal,
    DampedMatrix,
    FactorDamped,
    FactorNew,
    FactorSolve,
    ReciprocalConditionNumber,
    SolvePositiveDefinite,
    /// `DampingDiagonal`, which then changes lent memory.
    Spoiled,
}

/// Replays the files of the calls on matrices.
pub fn replay(rt: &(impl Files + Print), buffer: &mut [u8]) -> io::Result<()> {
    let calls = [
        ("damping_diagonal.txt", Matrix::DampingDiagonal, 9, 3),
        ("damped_matrix.txt", Matrix::DampedMatrix, 10, 9),
        ("factor_damped.txt", Matrix::FactorDamped, 9, 6),
        ("factor_new.txt", Matrix::FactorNew, 10, 7),
        ("factor_solve.txt", Matrix::FactorSolve, 9, 3),
        (
            "reciprocal_condition_number.txt",
            Matrix::ReciprocalConditionNumber,
            15,
            1,
        ),
        (
            "solve_positive_definite.txt",
            Matrix::SolvePositiveDefinite,
            30,
            5,
        ),
        ("faulty.txt", Matrix::DampingDiagonal, 9, 3),
        ("faulty_room.txt", Matrix::Spoiled, 10, 3),
    ];
    for (file, call, inputs, numbers) in calls {
        let lengths = Lengths {
            inputs,
            numbers,
            counts: 0,
        };
        files::replay(rt, buffer, file, Call::Matrix(call), lengths)?;
    }
    Ok(())
}

impl Matrix {
    /// Makes the call, and returns its code.
    pub fn make(self, inputs: &Inputs, out: &mut [f64; 59], counts: &mut [u16; 3]) -> u64 {
        let x = &inputs.numbers;
        match self {
            Matrix::DampingDiagonal => matrix_calls::damping_diagonal(&x[..9], &mut out[..3]),
            Matrix::DampedMatrix => matrix_calls::damped_matrix(&x[..9], x[9], &mut out[..9]),
            Matrix::FactorDamped => matrix_calls::factor_damped(&x[..9], &mut out[..6]),
            Matrix::FactorNew => matrix_calls::factor_new(&x[..9], x[9], &mut out[..7]),
            Matrix::FactorSolve => matrix_calls::factor_solve(&x[..6], &x[6..9], &mut out[..3]),
            Matrix::ReciprocalConditionNumber => {
                matrix_calls::reciprocal_condition_number(&x[..6], &x[6..15], &mut out[..1])
            }
            Matrix::SolvePositiveDefinite => {
                matrix_calls::solve_positive_definite(&x[..25], &x[25..30], &mut out[..5])
            }
            Matrix::Spoiled => {
                let code = matrix_calls::damping_diagonal(&x[..9], &mut out[..3]);
                memory::spoil(out, counts, inputs.words[9]);
                code
            }
        }
    }
}
