//! The outcome of a call of the C interface: a refusal as one number, and the values in lent
//! memory, which beside a refusal stays as it was.

ghost use Rattle.std.specs.Prelude.{◌≡◌, length};
ghost use Rattle.refusal.specs.Outcome as Outcome;
ghost use Rattle.refusal.specs.RefusalRow as RefusalRow;
ghost use Rattle.refusal.specs.declared.Refusal.TheVariants.{Lengths};
ghost use Rattle.c_calls.specs.Outcomes as Outcomes;

use refusal::Refusal;

// The code of a refusal: number + 256 · view + 65,536 · index
#[tactic(auto, unfolding(crate::specs::Outcomes::code))]
pub(crate) fn code(refusal: Refusal) -> u64
    ensures { result ≡ Outcomes.code (RefusalRow.row refusal) }
{
    let row = refusal.row();
    row.number as u64 + 256 * (row.view as u64) + 65536 * (row.index as u64)
}

// The code of row 1: a length does not fit.
pub(crate) fn lengths() -> u64
    ensures { result ≡ Outcomes.code (RefusalRow.row Lengths) }
{
    code(Refusal::Lengths)
}

// Stores the numbers, and returns 0; beside a refusal stores nothing, and returns its code.
#[tactic(auto, unfolding(crate::specs::Outcomes::code))]
pub(crate) fn store_result<const N: usize>(
    numbers: Result<[f64; N], Refusal>,
    out: &mut [f64],
) -> u64
    requires { length out.old ≡ N }
    ensures { Outcomes.HasOutcome result out.new (Outcome.outcome out.old numbers.entry) }
{
    match numbers {
        Ok(numbers) => {
            out.copy_from_slice(&numbers);
            0
        }
        Err(refusal) => code(refusal),
    }
}
