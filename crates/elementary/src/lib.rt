// The functions E, S and C of document 01, which stand for exp, sin and cos. Each is defined at every double, NaN and the infinities
// among them, and equals its definition in specs/.
#![tactic(auto)]

mod exponential;
mod wave;

pub use exponential::exp;
pub use wave::{cos, reduced_angle, sin};
