//! Replays stored outcomes: each line of data/NAME.txt is a call of the original Rust with what it
//! gave, and the proved call has to give the same, bit for bit; then the list of each stored run
//! record. `README.md` has the form of the lines.
#![tactic(auto)]

mod cases;
mod files;
mod matrices;
mod memory;
mod numbers;
mod points;
mod records;
mod steps;
mod systems;
mod values;

use std::io;

fn main(rt: HostRuntime) -> io::Result<()> {
    let mut buffer = [0; files::BUFFER];
    numbers::replay(&rt, &mut buffer)?;
    matrices::replay(&rt, &mut buffer)?;
    points::replay(&rt, &mut buffer)?;
    systems::replay(&rt, &mut buffer)?;
    steps::replay(&rt, &mut buffer)?;
    records::replay(&rt, &mut buffer)
}
