//! Prints figures that are worked out by hand (docs/SPECIFICATION.md, "Worked figures"), each on a
//! line of its own as the proved code gives it: first the named ones, then the root of each pattern
//! that standard input lists. What they have to be is in `stdout` beside this folder;
//! `tools/root-vectors` says where the roots come from.
#![tactic(auto)]

mod blocks;
mod lent;
mod projections;
mod roots;
mod steps;
mod systems;
mod table;

use program_io::{show, stored_file};
use std::io;

fn main(rt: HostRuntime) -> io::Result<()> {
    table::every_figure_holds();
    let mut bytes = [0; 16384];
    let n = stored_file::read_full(&mut rt.reader(), &mut bytes)?;
    let Ok(text) = str::from_utf8(&bytes[..n]) else {
        return Err(io::ErrorKind::InvalidData.into());
    };
    show::print_figure(&rt, "root of 4", root::sqrt(4.0))?;
    show::print_figure(&rt, "root of 2", root::sqrt(2.0))?;
    show::print_figure(&rt, "root of -0", root::sqrt(-0.0))?;
    projections::print(&rt)?;
    blocks::print(&rt)?;
    systems::print(&rt)?;
    steps::print(&rt)?;
    lent::print(&rt)?;
    roots::print(&rt, text)
}
