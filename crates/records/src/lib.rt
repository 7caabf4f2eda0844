// A state as a record in lent memory.
#![tactic(auto)]

mod record;

pub use record::{RecordCounts, put_if_recorded, record_counts};
