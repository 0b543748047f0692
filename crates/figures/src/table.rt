//! The table of the figures worked out by hand that are proved of the definitions
//! (docs/SPECIFICATION.md, "Worked figures").

ghost use Rattle.figures.specs.Table as Table;

/// Every figure of the table is what the definitions give that the contracts of the proved code
/// cite.
#[tactic(auto, using(crate::proofs::Rows::every_figure_holds))]
pub fn every_figure_holds()
    ensures { Table.EveryFigureHolds }
{}
