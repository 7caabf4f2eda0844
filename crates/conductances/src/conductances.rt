// The conductance matrix, row by row, 32 entries to a row whatever the number of stations.
ghost use Rattle.std.specs.Prelude.{◌≡◌};
ghost use Rattle.conductances.specs.Conductances.{joined, each_entry, conductances_of};

use grid::{DcCable, DcSwitchingSimulator, MOST_STATIONS, StationCount, cable_resistance};

// The conductance matrix of any grid, accepted or not: all cables are added to zeros, one after the other, so that each entry is added up in the cables'
// order. A count past the arrays takes all of them.
pub fn conductances_of(g: &DcSwitchingSimulator) -> [f64; 1024]
    ensures { result ≡ conductances_of g.now }
{
    let n = StationCount::of(g.n_stations);
    let cables = g.present_cables();
    let mut m = [0.0; 1024];
    for c in cables {
        connect(&mut m, *c, n);
    }
    m
}

// Adds one cable to the matrix: it adds its conductance at each of the two ends, and takes it off between them. A cable with an end at or past the count is skipped. The count stands beside the
// matrix, whose rows are 32 long whatever it is.
fn connect(m: &mut [f64; 1024], c: DcCable, n: StationCount)
    ensures { m.new ≡ each_entry (λ i j x. joined n.value i j x c) m.old }
{
    let from = c.from_station as usize;
    let to = c.to_station as usize;
    if from < n.value && to < n.value {
        let g = 1.0 / cable_resistance(c);
        m[from * MOST_STATIONS + from] += g;
        m[to * MOST_STATIONS + to] += g;
        m[from * MOST_STATIONS + to] -= g;
        m[to * MOST_STATIONS + from] -= g;
    }
}
