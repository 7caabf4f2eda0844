// A sheet, a byte at a time, in pieces as they arrive.
#![tactic(auto)]

mod bytes;

pub use bytes::{LINE_LENGTH, Reading, ended, feed, start, stopped};
