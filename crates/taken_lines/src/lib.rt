// A sheet, a line at a time: its grid and its order so far, the first bad line of each letter, and whether a line is refused.
#![tactic(auto)]

mod taken;

pub use taken::{Sheet, empty_sheet, has_stopped, with_line};
