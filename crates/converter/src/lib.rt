// The points of converters, line-commutated (LCC) and voltage-source (VSC), of any station, accepted or not.
#![tactic(auto)]

mod floor;
mod lcc;
mod point;
mod vsc;

pub use lcc::lcc_point;
pub use point::{ConverterOperatingPoint, no_point};
pub use vsc::vsc_point;
