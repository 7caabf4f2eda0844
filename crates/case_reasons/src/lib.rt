// Why a case is listed, and its row.
#![tactic(auto)]

mod reasons;
mod row;

pub use reasons::{CaseOutcome, Limit, reasons_for, reasons_in};
pub use row::{CaseRow, ROW_LENGTH, put_row};
