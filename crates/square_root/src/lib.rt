// The square root of IEEE 754 as document 01 has it, and SQRT_2. `sqrt` is defined at every double, NaN and the infinities
// among them, and equals its definition in specs/.
#![tactic(auto)]

mod constants;
mod root;

pub use constants::{SQRT_2, root_of_two};
pub use root::sqrt;
