// What a whole sheet is answered by, as document 01 has it: definitions, and the types of an answer.
#![tactic(auto)]

mod answers;
mod other;

pub use answers::{SheetContents, SheetFault, SheetRefusal};
pub use other::OtherNumber;
