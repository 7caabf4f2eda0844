// A cable's total resistance, and the station at which an end of it is taken to be.
ghost use Rattle.std.specs.Prelude.{◌≡◌};
ghost use Rattle.grid.specs.Cables.{resistance, cut};

use crate::parts::DcCable;

// A cable without resistance has a very small one.
pub fn cable_resistance(c: DcCable) -> f64
    ensures { result ≡ resistance c }
{
    float64::max(c.r_per_km * c.length_km, 0.000000001)
}

// An end at or past the count is cut to the last station. Without stations it is the first place.
pub fn cut_end(station: u64, n: usize) -> usize
    ensures { result ≡ cut n station }
{
    (station as usize).min(n.saturating_sub(1))
}
