// A sheet, whole or in pieces as they arrive: its grid and its order, or the number and the line of what is wrong with it.
#![tactic(auto)]

mod read;

pub use read::read_sheet;
pub use sheet_answers::answer;
pub use sheet_bytes::{Reading, feed, start, stopped};
pub use whole_sheets::{OtherNumber, SheetContents, SheetFault, SheetRefusal};
