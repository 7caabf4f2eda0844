// How a pass moves the voltages.
ghost use Rattle.std.specs.Prelude.{◌≡◌, ◌<◌, ◌-◌, min};
ghost use Rattle.voltage_moves.specs.Moves as specs;
ghost use Rattle.voltage_moves.specs.Moves.{moved_all, moved_to};

use float64::{abs, clamp};
use grid::{MOST_STATIONS, StationCount};

// Moves the voltages by one pass, with mismatches d that were all taken before it and the conductances m. Of two stations the second is moved and not clamped.
// The count is any number, since nothing is asked of a caller: one past the arrays takes all of them.
#[tactic(auto, unfolding(crate::specs::Moves::moved_of_two))]
pub fn move_voltages(
    v: &mut [f64; MOST_STATIONS],
    rated: &[f64; MOST_STATIONS],
    d: &[f64; MOST_STATIONS],
    m: &[f64; 1024],
    n_stations: usize,
)
    ensures { v.new ≡ moved_all m.now (min n_stations 32) rated.now d.now v.old }
{
    let n = StationCount::of(n_stations);
    if n.value == 2 {
        let q = 2.0 * m[33] * v[1] + m[32] * v[0];
        v[1] = moved(v[1], d[1], q);
    } else {
        move_each(v, rated, d, m, n);
    }
}

// Moves the stations behind the first one after the other, each clamped to 0.5 to 1.5 of its rated voltage. The divisor of a station sees those before it as
// they have moved. The count stands beside the arrays, here and in `divisor`: each as a slice would need a clause that it is as long as the others.
#[tactic(auto, unfolding(crate::specs::Moves::moved_to))]
fn move_each(
    v: &mut [f64; MOST_STATIONS],
    rated: &[f64; MOST_STATIONS],
    d: &[f64; MOST_STATIONS],
    m: &[f64; 1024],
    n: StationCount,
)
    ensures { v.new ≡ moved_to m.now n.value rated.now d.now v.old (n.value - 1) }
{
    for i in 1..n.value {
        let x = moved(v[i], d[i], divisor(m, v, i, n));
        let r = rated[i];
        v[i] = clamp(x, r * 0.5, r * 1.5);
    }
}

// What a station's mismatch is divided by: how its power changes with its own voltage. Its own product stands apart from those of the others.
fn divisor(m: &[f64; 1024], v: &[f64; MOST_STATIONS], i: usize, n: StationCount) -> f64
    requires { i < n.value }
    ensures { result ≡ specs.divisor m.now n.value v.now i }
{
    let mut others = 0.0;
    'below: for j in 0..i {
        others += m[i * MOST_STATIONS + j] * v[j];
    }
    'above: for j in i + 1..n.value {
        others += m[i * MOST_STATIONS + j] * v[j];
    }
    2.0 * m[i * MOST_STATIONS + i] * v[i] + others
}

// The voltage moved by mismatch / divisor. A divisor near zero moves nothing.
#[tactic(auto, unfolding(crate::specs::Moves::moved))]
fn moved(v: f64, mismatch: f64, divisor: f64) -> f64
    ensures { result ≡ specs.moved v mismatch divisor }
{
    if abs(divisor) > 0.000000000001 {
        return v + mismatch / divisor;
    }
    v
}
