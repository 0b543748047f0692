//! The calls on a system. It has 45 numbers and three counts.

use crate::files::{self, Call, Lengths};
use crate::memory::{self, Inputs, Memory};
use c_calls::system_calls;
use std::io;
use std::rt::Files;

/// A call on a system.
#[derive(Clone, Copy)]
pub enum System {
    New,
    Add,
    FinishDamping,
    IsValid,
    ScaledGradientInfNorm,
    PredictedReduction,
    /// `FinishDamping`, which then changes lent memory.
    Spoiled,
}

/// Replays the files of the calls on a system.
pub fn replay(rt: &(impl Files + Print), buffer: &mut [u8]) -> io::Result<()> {
    let calls = [
        ("system_new.txt", System::New, 48, 45, 3),
        ("system_add.txt", System::Add, 108, 45, 3),
        (
            "system_finish_damping.txt",
            System::FinishDamping,
            49,
            45,
            3,
        ),
        ("system_is_valid.txt", System::IsValid, 48, 0, 1),
        (
            "system_scaled_gradient_inf_norm.txt",
            System::ScaledGradientInfNorm,
            48,
            1,
            0,
        ),
        (
            "system_predicted_reduction.txt",
            System::PredictedReduction,
            55,
            1,
            0,
        ),
        ("faulty_system.txt", System::Spoiled, 50, 45, 3),
    ];
    for (file, call, inputs, numbers, counts) in calls {
        let lengths = Lengths {
            inputs,
            numbers,
            counts,
        };
        files::replay(rt, buffer, file, Call::System(call), lengths)?;
    }
    Ok(())
}

impl System {
    /// The memory that the call is lent: with the system that it changes in place, or filled.
    pub fn memory(self, inputs: &Inputs) -> Memory {
        match self {
            System::New | System::Add | System::FinishDamping | System::Spoiled => inputs.system(),
            _ => Memory::filled(),
        }
    }

    /// Makes the call, and returns its code.
    pub fn make(self, inputs: &Inputs, out: &mut [f64; 59], counts: &mut [u16; 3]) -> u64 {
        let x = &inputs.numbers;
        let given = inputs.counts();
        match self {
            System::New => system_calls::system_new(&mut out[..45], counts),
            System::Add => { system_calls::system_add(&mut out[..45], counts, &x[48..107], x[107]) }
            System::FinishDamping => {
                system_calls::system_finish_damping(&mut out[..45], counts, x[48])
            }
            System::IsValid => { system_calls::system_is_valid(&x[..45], &given, &mut counts[..1]) }
            System::ScaledGradientInfNorm => {
                system_calls::system_scaled_gradient_inf_norm(&x[..45], &given, &mut out[..1])
            }
            System::PredictedReduction => predicted_reduction(x, &given, out),
            System::Spoiled => {
                let code = system_calls::system_finish_damping(&mut out[..45], counts, x[48]);
                memory::spoil(out, counts, inputs.words[49]);
                code
            }
        }
    }
}

fn predicted_reduction(x: &[f64; 108], counts: &[u16; 3], out: &mut [f64; 59]) -> u64 {
    let out = &mut out[..1];
    system_calls::system_predicted_reduction(&x[..45], counts, &x[48..53], x[53], x[54], out)
}
