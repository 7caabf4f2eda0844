// What 000 does with the voltages after clearing.
ghost use Rattle.std.specs.Prelude.{◌≡◌, min, not};
ghost use Rattle.std.specs.Float.{nan};
ghost use Rattle.std.specs.Float.Ieee.{lt, le};
ghost use Rattle.lists.specs.Tables.{over};
ghost use Rattle.lists.specs.Scans.{each};
ghost use Rattle.float64.specs.Arithmetic.{of, ◌⊗◌};
ghost use Rattle.recovery.specs.Constants.{recovered_part};
ghost use Rattle.recovery.specs.Recovery.{recovering};

use float64::min;
use grid::StationCount;

// Moves each voltage one step towards its rated one. Here and below two arrays share a count: as slices each would need a clause that it is as long as the other.
pub fn recover_voltages(y: &mut [f64; 96], rated: &[f64; 96], n_stations: usize)
    ensures { y.new ≡ over (min n_stations 32) (λ i. recovering (of rated.now i) (of y.old i)) nan y.old }
{
    let n = StationCount::of(n_stations);
    for i in 0..n.value {
        y[i] = recovered(y[i], rated[i]);
    }
}

// A voltage one step later: where it is below its rated one, nearer to that by a thousandth of it, and not past it; else as it is.
fn recovered(v: f64, rated: f64) -> f64
    ensures { result ≡ recovering rated v }
{
    if v < rated {
        return min(v + 0.001 * rated, rated);
    }
    v
}

// Whether each voltage is at least 0.9 of its rated one.
pub fn all_recovered(y: &[f64; 96], rated: &[f64; 96], n_stations: usize) -> bool
    ensures { result ≡ each (min n_stations 32) (λ i. le (recovered_part ⊗ of rated.now i) (of y.now i)) }
{
    let n = StationCount::of(n_stations);
    for i in 0..n.value {
        if !has_recovered(y[i], rated[i]) {
            return false;
        }
    }
    true
}

fn has_recovered(v: f64, rated: f64) -> bool
    ensures { result ≡ le (recovered_part ⊗ rated) v }
{
    0.9 * rated <= v
}

// Whether no voltage is below its rated one. A NaN is not below.
pub fn none_below(y: &[f64; 96], rated: &[f64; 96], n_stations: usize) -> bool
    ensures { result ≡ each (min n_stations 32) (λ i. not (lt (of y.now i) (of rated.now i))) }
{
    let n = StationCount::of(n_stations);
    for i in 0..n.value {
        if y[i] < rated[i] {
            return false;
        }
    }
    true
}
