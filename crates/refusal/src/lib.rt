//! Why a call gives no result: a `Refusal` says it, with the view and the index where these have a
//! sense, and its `Row` says the same by numbers. `specs/Outcome.antt` says what stands beside a
//! refusal. docs/SPECIFICATION.md, "Refusals".
#![tactic(auto)]

ghost use Rattle.std.specs.Prelude.{◌≡◌, Some};
ghost use Rattle.refusal.specs.RefusalRow as RefusalRow;

use std::error::Error;
use std::fmt;

/// One of the two views of a point: number 1 or 2.
#[derive(Clone, Copy, Debug, PartialEq, Eq)]
pub enum View {
    /// The view of camera 1, whose frame is the world's.
    First,
    /// The view of camera 2.
    Second,
}

/// Why a call gives no result, in the order of the rows of docs/SPECIFICATION.md, "Refusals". n is
/// the count of points. An index is a point's, and counts from 0; it is 0 in a call that has a
/// single point.
#[derive(Clone, Copy, Debug, PartialEq, Eq)]
pub enum Refusal {
    /// Row 1: an array's length does not fit n, or its layout.
    Lengths,
    /// Row 2: n is above 65,535.
    TooManyPoints,
    /// Row 3: the damping is not finite, or below 0.
    Damping,
    /// Row 4: the inverse standard deviation of a point is not finite, or at most 0.
    InverseStandardDeviation { index: u32 },
    /// Row 5: the baseline is not finite, or at most 64ε.
    Baseline,
    /// Row 6: a coordinate of a point is not finite.
    Point { index: u32 },
    /// Row 7: n is below 5.
    TooFewPoints,
    /// Row 8: an observation of a point is not finite, in the view that is named.
    Observation { view: View, index: u32 },
    /// Row 9, view 0: `pixel_projection` gives none for a point in one camera alone.
    NotProjectable,
    /// Row 9: `pixel_projection` gives none for a point in the view that is named.
    PointNotProjectable { view: View, index: u32 },
    /// Row 10: the reduced system is not valid; of a call on one block, the block does not factor.
    NotFactored,
    /// Row 11: the 5 by 5 solve gives none.
    NotSolved,
    /// Row 12: the system's `weak_point_count` is above its `block_count`.
    WeakCount,
    /// Row 13: the system has 65,535 blocks already.
    Full,
    /// Row 14: the run record is longer than 34,559 bytes.
    RecordTooLong,
    /// Row 15: a field of the run record is broken. It begins at the byte `start`, which is the
    /// row's index.
    RecordForm { start: u32 },
}

/// A refusal by its numbers: row, view and index. A part that says nothing of the row at hand is 0,
/// and all are 0 where nothing is refused.
#[derive(Clone, Copy, Debug, PartialEq, Eq)]
pub struct Row {
    /// The row's number, 1 to 15, or 0.
    pub number: u32,
    /// The view, 1 or 2, or 0.
    pub view: u32,
    /// A point's index from 0; of row 15 the byte at which the broken field begins.
    pub index: u32,
}

impl View {
    // 1 or 2
    fn number(self) -> u32
        ensures { result ≡ RefusalRow.view_number self }
    {
        match self {
            View::First => 1,
            View::Second => 2,
        }
    }
}

impl Refusal {
    /// The refusal's row: its number, and its view and index, 0 where it has none.
    #[tactic(auto, unfolding(crate::specs::RefusalRow::row))]
    pub fn row(self) -> Row
        ensures { result ≡ RefusalRow.row self }
    {
        match self {
            Refusal::Lengths => Row::of(1),
            Refusal::TooManyPoints => Row::of(2),
            Refusal::Damping => Row::of(3),
            Refusal::InverseStandardDeviation { index } => Row::at(4, 0, index),
            Refusal::Baseline => Row::of(5),
            Refusal::Point { index } => Row::at(6, 0, index),
            Refusal::TooFewPoints => Row::of(7),
            Refusal::Observation { view, index } => Row::at(8, view.number(), index),
            Refusal::NotProjectable => Row::of(9),
            Refusal::PointNotProjectable { view, index } => Row::at(9, view.number(), index),
            Refusal::NotFactored => Row::of(10),
            Refusal::NotSolved => Row::of(11),
            Refusal::WeakCount => Row::of(12),
            Refusal::Full => Row::of(13),
            Refusal::RecordTooLong => Row::of(14),
            Refusal::RecordForm { start } => Row::at(15, 0, start),
        }
    }
}

/// Writes `refused NUMBER VIEW INDEX`, the numbers in decimal.
impl fmt::Display for Refusal {
    ghost output = { λ refusal. Some (RefusalRow.refusal_text refusal) };

    fn fmt<W: fmt::Write>(&self, f: &mut fmt::Formatter<W>) -> fmt::Result {
        let row = self.row();
        write!(f, "refused {} {} {}", row.number, row.view, row.index)
    }
}

impl Error for Refusal {}

impl Row {
    // The one place where a row is made: by number, view and index
    fn at(number: u32, view: u32, index: u32) -> Self
        ensures { result ≡ RefusalRow.row_at number view index }
    {
        Self {
            number,
            view,
            index,
        }
    }

    // A row that names neither view nor index
    fn of(number: u32) -> Self
        ensures { result ≡ RefusalRow.row_of number }
    {
        Self::at(number, 0, 0)
    }
}
