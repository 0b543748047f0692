//! The files of stored outcomes, and what is printed of each.

use crate::cases::Case;
use crate::matrices::Matrix;
use crate::memory::{Inputs, Memory};
use crate::numbers::Number;
use crate::points::Point;
use crate::steps::Step;
use crate::systems::System;
use program_io::stored_file;
use std::io;
use std::rt::Files;

/// The length of the buffer: one byte more than a file has at most.
pub const BUFFER: usize = 300_001;

/// A call that is replayed.
#[derive(Clone, Copy)]
pub enum Call {
    Number(Number),
    Matrix(Matrix),
    Point(Point),
    System(System),
    Step(Step),
}

/// How many words the lines of a call have before the outcome, and how many numbers and counts the
/// call gives.
#[derive(Clone, Copy)]
pub struct Lengths {
    pub inputs: usize,
    pub numbers: usize,
    pub counts: usize,
}

/// What a call gave: its code, and its lent memory before and after.
#[derive(Clone, Copy)]
pub struct Outcome {
    pub code: u64,
    pub before: Memory,
    pub after: Memory,
}

/// Makes the call of each line of a file, NAME.txt, and prints how many lines and refusals there
/// are, and how many outcomes are not the stored ones. The first three of those are printed.
pub fn replay(
    rt: &(impl Files + Print),
    buffer: &mut [u8],
    file: &str,
    call: Call,
    lengths: Lengths,
) -> io::Result<()> {
    let name = file.strip_suffix(".txt").unwrap_or(file);
    let text = text(rt, buffer, file)?;
    let mut cases = 0u64;
    let mut refused = 0u64;
    let mut differences = 0u64;
    for line in text.lines() {
        cases = cases.saturating_add(1);
        refused = refused.saturating_add(u64::from(is_refused(line)));
        let Err(difference) = comparison(line, call, lengths) else {
            continue;
        };
        if differences < 3 {
            print!(rt; "{name} line {cases}")?;
            difference.show(rt, lengths)?;
        }
        differences = differences.saturating_add(1);
    }
    println!(rt; "{name} {cases} cases {refused} refused {differences} differences")
}

/// The text of a file, read into the buffer.
pub fn text<'a>(rt: &impl Files, buffer: &'a mut [u8], file: &str) -> io::Result<&'a str> {
    let n = stored_file::read(rt, file, buffer)?;
    match str::from_utf8(&buffer[..n]) {
        Ok(text) => Ok(text),
        Err(_) => Err(io::ErrorKind::InvalidData.into()),
    }
}

// How a line differs from what its call gave
#[derive(Clone, Copy)]
enum Difference {
    OutOfForm,
    Gave(Outcome),
}

// Makes the call of a line, and compares what it gives with the stored outcome.
fn comparison(line: &str, call: Call, lengths: Lengths) -> Result<(), Difference> {
    let case = Case::read(line).ok_or(Difference::OutOfForm)?;
    let inputs = case.inputs(lengths.inputs).ok_or(Difference::OutOfForm)?;
    let outcome = call.outcome(&inputs);
    if case.agrees(&outcome, lengths) {
        Ok(())
    } else {
        Err(Difference::Gave(outcome))
    }
}

// Whether the stored outcome of a line is a refusal; not where it is out of form
fn is_refused(line: &str) -> bool {
    match Case::read(line) {
        Some(case) => case.is_refused(),
        None => false,
    }
}

impl Call {
    // Makes the call in memory of its own.
    fn outcome(self, inputs: &Inputs) -> Outcome {
        let before = match self {
            Call::System(call) => call.memory(inputs),
            _ => Memory::filled(),
        };
        let Memory {
            mut numbers,
            mut counts,
        } = before;
        let x = &inputs.numbers;
        let code = match self {
            Call::Number(call) => call.make(x, &mut numbers),
            Call::Matrix(call) => call.make(inputs, &mut numbers, &mut counts),
            Call::Point(call) => call.make(x, &mut numbers),
            Call::System(call) => call.make(inputs, &mut numbers, &mut counts),
            Call::Step(call) => call.make(x, &mut numbers, &mut counts),
        };
        Outcome {
            code,
            before,
            after: Memory { numbers, counts },
        }
    }
}

impl Difference {
    fn show(&self, rt: &impl Print, lengths: Lengths) -> io::Result<()> {
        match self {
            Difference::OutOfForm => println!(rt; " is out of form"),
            Difference::Gave(outcome) => outcome.show(rt, lengths),
        }
    }
}

impl Outcome {
    // What the call gave, or beside a refusal which bits of the lent memory are not what they were
    fn show(&self, rt: &impl Print, lengths: Lengths) -> io::Result<()> {
        let code = self.code;
        print!(rt; " gave {code}")?;
        let numbers = self.after.numbers.iter().zip(&self.before.numbers);
        for (x, was) in numbers.take(lengths.numbers) {
            let mut pattern = numerics::to_bits(*x);
            if code != 0 {
                pattern ^= numerics::to_bits(*was);
            }
            print!(rt; " {pattern:016X}")?;
        }
        let counts = self.after.counts.iter().zip(&self.before.counts);
        for (count, was) in counts.take(lengths.counts) {
            let mut count = *count;
            if code != 0 {
                count ^= *was;
            }
            print!(rt; " {count:04X}")?;
        }
        println!(rt)
    }
}
