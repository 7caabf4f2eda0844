// Degrees to radians.
ghost use Rattle.std.specs.Prelude.{◌≡◌};
ghost use Rattle.float64.specs.Angle.{radians_of};

use crate::constants::PI;

// f64::to_radians
pub fn to_radians(degrees: f64) -> f64
    ensures { result ≡ radians_of degrees }
{
    degrees * (PI / 180.0)
}
