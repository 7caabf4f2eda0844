// What every stage of a step needs of a grid and of a fault, computed once.
ghost use Rattle.std.specs.Prelude.{◌≡◌};
ghost use Rattle.network.specs.Network.{inductance, network_of, drain_of, no_drain};

use crate::capacitance::{capacitance_with, joined_capacitance};
use float64::max;
use grid::{
    DcCable, DcFaultEvent, DcSwitchingSimulator, MOST_CABLES, MOST_STATIONS, cable_resistance,
};

// A grid as the stages see it, in arrays that can be lent. Three or more of them share a count, which may be any number: as slices each would need to be as long as the others.
#[derive(Clone, Copy)]
pub struct Network {
    pub n_stations: usize,
    pub n_cables: usize,
    pub from: [usize; MOST_CABLES],
    pub to: [usize; MOST_CABLES],
    pub resistance_ohm: [f64; MOST_CABLES],
    pub inductance_h: [f64; MOST_CABLES],
    pub capacitance_f: [f64; MOST_STATIONS],
}

// What a fault drains from the stations at both ends of its cable.
#[derive(Clone, Copy)]
pub struct Drain {
    pub from: usize,
    pub to: usize,
    // A thousand times the fault's own, as 000 divides by it.
    pub resistance: f64,
    pub fraction: f64,
}

// A position past every station.
const NOWHERE: usize = MOST_STATIONS;

// The network of any grid. A count past the arrays takes all of them.
pub fn network_of(g: DcSwitchingSimulator) -> Network
    ensures { result ≡ network_of g }
{
    let stations = g.present_stations();
    let cables = g.present_cables();
    let mut from = [0; MOST_CABLES];
    let mut to = [0; MOST_CABLES];
    let mut resistance_ohm = [0.0; MOST_CABLES];
    let mut inductance_h = [0.0; MOST_CABLES];
    for (k, c) in cables.iter().enumerate() {
        from[k] = c.from_station as usize;
        to[k] = c.to_station as usize;
        resistance_ohm[k] = cable_resistance(*c);
        inductance_h[k] = cable_inductance(*c);
    }
    let mut capacitance_f = [0.0; MOST_STATIONS];
    for (i, s) in stations.iter().enumerate() {
        let joined = joined_capacitance(s.id, cables);
        capacitance_f[i] = max(capacitance_with(*s, joined) * 0.000001, 0.000000000001);
    }
    Network {
        n_stations: stations.len(),
        n_cables: cables.len(),
        from,
        to,
        resistance_ohm,
        inductance_h,
        capacitance_f,
    }
}

// A cable's inductance in henries, at least 1e-9.
fn cable_inductance(c: DcCable) -> f64
    ensures { result ≡ inductance c }
{
    max(c.l_per_km * c.length_km * 0.001, 0.000000001)
}

// What a fault drains: nothing where the grid does not have its cable.
pub fn drain_of(g: DcSwitchingSimulator, fault: DcFaultEvent) -> Drain
    ensures { result ≡ drain_of g fault }
{
    let k = fault.location_cable_id as usize;
    match g.present_cables().get(k) {
        Some(c) => Drain {
            from: c.from_station as usize,
            to: c.to_station as usize,
            resistance: max(fault.fault_resistance, 0.000001) * 1000.0,
            fraction: fault.location_fraction,
        },
        None => no_drain(),
    }
}

// No drain, as in a step without a fault: its ends are no stations.
pub fn no_drain() -> Drain
    ensures { result ≡ no_drain }
{
    Drain {
        from: NOWHERE,
        to: NOWHERE,
        resistance: 0.0,
        fraction: 0.0,
    }
}
