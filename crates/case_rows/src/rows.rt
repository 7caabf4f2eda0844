// The row of a case that an advance closes.
ghost use Rattle.std.specs.Prelude.{◌≡◌, cond, ◌*◌, length};
ghost use Rattle.std.proofs.lemmas.List.Edits.{sets};
ghost use Rattle.portions.specs.Stopping.{joined};
ghost use Rattle.portions.specs.Cases.{to_list};
ghost use Rattle.case_rows.specs.Rows.{loss_in, room_behind, row_in};

use case_reasons::{CaseOutcome, CaseRow, ROW_LENGTH, put_row, reasons_in};
use fault_cases::case_place;
use grid::{DcSwitchingSimulator, SweepOrder};
use power_flow::DcGridSolution;

// What the row of a case is read from beside its outcome.
#[derive(Clone, Copy)]
pub struct Swept {
    pub grid: DcSwitchingSimulator,
    pub order: SweepOrder,
    // The flow's results.
    pub flow: DcGridSolution,
}

impl Swept {
    // Writes the row of case k behind `out` rows, if it has one and a whole row fits, and says how many that were.
    pub fn put_case(&self, rows: &mut [u64], out: usize, k: u64, outcome: CaseOutcome) -> usize
        ensures answer { result ≡ cond (room_behind out rows.old) (length (to_list (row_in self.now k outcome))) 0 }
        ensures memory { rows.new ≡ cond (room_behind out rows.old) (sets rows.old (8 * out) (joined (to_list (row_in self.now k outcome)))) rows.old }
    {
        if rows.len() / ROW_LENGTH <= out {
            return 0;
        }
        let place = case_place(self.order, k);
        let row = CaseRow {
            place,
            reasons: reasons_in(&self.grid, place.cable, outcome),
            outcome,
            loss_mw: loss_of(&self.flow, place.cable),
        };
        put_row(rows, ROW_LENGTH * out, row)
    }
}

// The flow's loss in a cable; zero past the last place.
fn loss_of(flow: &DcGridSolution, cable: u64) -> f64
    ensures { result ≡ loss_in flow.now cable }
{
    flow.cable_losses_mw
        .get(cable as usize)
        .copied()
        .unwrap_or(0.0)
}
