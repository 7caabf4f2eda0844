// A case's row in lent memory.
ghost use Rattle.std.specs.Prelude.{◌≡◌, cond, [], length};
ghost use Rattle.std.proofs.lemmas.List.Edits.{sets};
ghost use Rattle.case_reasons.specs.Reasons.{writes_row, numbers_of, current_shown};

use crate::reasons::CaseOutcome;
use fault_cases::CasePlace;
use float64::to_bits;

// The numbers of a row.
pub const ROW_LENGTH: usize = 8;

// What the row of a case says.
#[derive(Clone, Copy)]
pub struct CaseRow {
    pub place: CasePlace,
    // Added up; 0 where there is no row.
    pub reasons: u64,
    pub outcome: CaseOutcome,
    // The flow's loss in the cable.
    pub loss_mw: f64,
}

// Writes the row of a case that has reasons from a position on, where the whole of it fits, and says how many rows that were.
#[tactic(auto, using(lists::proofs::Stores::put_sets))]
pub fn put_row(rows: &mut [u64], at: usize, row: CaseRow) -> usize
    ensures answer { result ≡ cond (writes_row row.reasons at (length rows.old)) 1 0 }
    ensures memory { rows.new ≡ sets rows.old at (cond (writes_row row.reasons at (length rows.old)) (numbers_of row.place row.reasons row.outcome row.loss_mw) []) }
{
    if writes_row(row.reasons, at, rows.len()) {
        let numbers = row_numbers(row);
        rows[at..at + ROW_LENGTH].copy_from_slice(&numbers);
        return 1;
    }
    0
}

// Whether there are reasons, and the whole row lies within the memory.
fn writes_row(reasons: u64, at: usize, len: usize) -> bool
    ensures { result ≡ writes_row reasons at len }
{
    reasons != 0 && at <= len && ROW_LENGTH <= len - at
}

// The eight numbers of a row, doubles by their bits.
fn row_numbers(row: CaseRow) -> [u64; ROW_LENGTH]
    ensures { result ≡ numbers_of row.place row.reasons row.outcome row.loss_mw }
{
    let place = row.place;
    let outcome = row.outcome;
    [
        place.cable,
        place.fault_type,
        place.tenth,
        row.reasons,
        to_bits(outcome.peak_fault_ka),
        to_bits(current_shown(outcome)),
        to_bits(outcome.energy_mj),
        to_bits(row.loss_mw),
    ]
}

// The clearing step's current, 0 if the fault is not cleared.
fn current_shown(outcome: CaseOutcome) -> f64
    ensures { result ≡ current_shown outcome }
{
    if outcome.cleared {
        return outcome.clearing_current_ka;
    }
    0.0
}
