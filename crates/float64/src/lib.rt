// Doubles as document 01 has them: the methods of Rust's f64 that 000 calls, but for the square root, exp, sin and cos, which have
// crates of their own, `square_root` and `elementary`. Every function is defined at every double, NaN and the infinities among
// them, and equals its definition in specs/.
#![tactic(auto)]

mod angle;
mod choice;
mod constants;
mod pattern;
mod trunc;

pub use angle::to_radians;
pub use choice::{abs, clamp, max, min};
pub use constants::PI;
pub use pattern::{from_bits, to_bits};
pub use trunc::whole_part;
