// Where the first part of a grid stands that has a field outside its range.
ghost use Rattle.std.specs.Prelude.{◌≡◌, Bool};
ghost use Rattle.lists.specs.Scans.{passing};
ghost use Rattle.part_checks.specs.PartChecks.{station_ok, cable_ok, breaker_ok};
ghost use Rattle.grid.specs.Simulator.{stations_of, cables_of, breakers_of};

use grid::{BreakerCount, CableCount, DcSwitchingSimulator, StationCount};
use part_checks::{check_breaker, check_cable, check_station};

// Each of the three names another array, count and test, and calls one search. The array is taken out of the grid: where the grid is lent, each call copies all of it.

// The position of the first station that rule 6 refuses, or how many stations there are; a number and no Option, here and below, since the definition counts
// those that pass before it.
pub fn first_bad_station(g: DcSwitchingSimulator) -> usize
    ensures { result ≡ passing station_ok (stations_of g) }
{
    let n = StationCount::of(g.n_stations);
    let stations = g.stations;
    first_bad(&stations[..n.value], |s| check_station(s))
}

// The position of the first cable that rule 7 refuses, or how many cables there are.
pub fn first_bad_cable(g: DcSwitchingSimulator) -> usize
    ensures { result ≡ passing cable_ok (cables_of g) }
{
    let n = CableCount::of(g.n_cables);
    let cables = g.cables;
    first_bad(&cables[..n.value], |c| check_cable(c))
}

// The position of the first breaker that rule 8 refuses, or how many breakers there are.
pub fn first_bad_breaker(g: DcSwitchingSimulator) -> usize
    ensures { result ≡ passing breaker_ok (breakers_of g) }
{
    let n = BreakerCount::of(g.n_breakers);
    let breakers = g.breakers;
    first_bad(&breakers[..n.value], |b| check_breaker(b))
}

// The position of the first part that is not accepted, or how many parts there are: what `passing` is of any test `ok` that answers
// as `accepts` does. What is asked of `accepts` is the clause of every closure that is called.
fn first_bad<T: Copy, F: Fn(T) -> bool>(parts: &[T], accepts: F) -> usize
    requires { F.IsAlwaysCallable accepts }
    ensures { (ok : _ → Bool) → ((x : _) (b : Bool) → F.post accepts x b → b ≡ ok x) → result ≡ passing ok parts.now }
{
    for (i, part) in parts.iter().enumerate() {
        if !accepts(*part) {
            return i;
        }
    }
    parts.len()
}
