// How fast the voltages of n stations and the currents of m cables change. The state y has the voltages, then the currents.
ghost use Rattle.std.specs.Prelude.{◌≡◌, ◌+◌, ◌-◌, cond, length, ltb};
ghost use Rattle.std.specs.Float.{nan};
ghost use Rattle.lists.specs.Tables.{blank, over, padded};
ghost use Rattle.float64.specs.Constants.{nought};
ghost use Rattle.float64.specs.Arithmetic.{of, ◌⊖◌, ◌⊗◌, ◌⊘◌};
ghost use Rattle.network.specs.Network.{end};
ghost use Rattle.state_derivatives.specs.Derivatives.{passed, net, drain_current, drained, cable_rate, slopes, stations_in, cables_in};

use crate::state::{StageSlopes, StageState};
use grid::{CableCount, MOST_STATIONS, StationCount, cut_end};
use network::{Drain, Network};

// A cable in a stage.
#[derive(Clone, Copy)]
struct CableStage {
    v_from_kv: f64,
    v_to_kv: f64,
    current_ka: f64,
    resistance_ohm: f64,
    inductance_h: f64,
}

// A station in a stage.
#[derive(Clone, Copy)]
struct StationStage {
    net_current_ka: f64,
    capacitance_f: f64,
}

// DcSwitchingSimulator::state_derivatives. A count past the tables takes all of them.
#[tactic(auto, unfolding(lists::specs::Tables::blank))]
pub fn state_derivatives(network: &Network, drain: Drain, state: StageState) -> StageSlopes
    ensures { result.dy ≡ slopes network.now drain state.y }
{
    let n = StationCount::of(network.n_stations);
    let mut nets = [0.0; MOST_STATIONS];
    add_currents(&mut nets, network, &state.y);
    drain_ends(&mut nets, drain, &state.y, n);
    let mut dy = [0.0; 96];
    station_rates(&mut dy, network, &nets);
    cable_rates(&mut dy, network, &state.y);
    StageSlopes { dy }
}

// The current into each station. A count past the tables takes all of them.
#[tactic(auto, unfolding(lists::specs::Tables::blank))]
pub fn net_currents(network: &Network, state: StageState) -> [f64; MOST_STATIONS]
    ensures { result ≡ padded 32 (stations_in network.now) (net (end network.now.from) (end network.now.to) (stations_in network.now) state.y (cables_in network.now)) nought }
{
    let mut nets = [0.0; MOST_STATIONS];
    add_currents(&mut nets, network, &state.y);
    nets
}

// The current into each station, into zeros that are lent: where such arrays were handed back, and copied, a step of two stations took half as long again. One pass over the cables: to each station's
// sum they are added in their order, as if the cables were gone through for each station.
fn add_currents(nets: &mut [f64; MOST_STATIONS], network: &Network, y: &[f64; 96])
    requires { nets.old ≡ blank 32 nought }
    ensures { nets.new ≡ padded 32 (stations_in network.now) (net (end network.now.from) (end network.now.to) (stations_in network.now) y.now (cables_in network.now)) nought }
{
    let n = StationCount::of(network.n_stations).value;
    let m = CableCount::of(network.n_cables).value;
    for k in 0..m {
        pass_current(&mut nets[..n], network.from[k], network.to[k], y[n + k]);
    }
}

// Adds a cable's current to the station at its second end, and takes it off the one at its first unless the two are one. An end past the stations has none.
fn pass_current(nets: &mut [f64], from: usize, to: usize, current: f64)
    ensures { nets.new ≡ over (length nets.old) (λ i. passed from to current i (of nets.old i)) nan nets.old }
{
    let n = nets.len();
    if to < n {
        nets[to] += current;
    }
    if from < n {
        if from != to {
            nets[from] -= current;
        }
    }
}

// Takes the drain off the stations at both ends of the faulted cable, once if the two are one. A count and no slices, since currents and
// voltages lie side by side: each would need a clause that it is as long as the other.
fn drain_ends(nets: &mut [f64; MOST_STATIONS], drain: Drain, y: &[f64; 96], n: StationCount)
    ensures { nets.new ≡ over n.value (λ i. drained drain y.now i (of nets.old i)) nan nets.old }
{
    let from = drain.from;
    let to = drain.to;
    if from < n.value {
        nets[from] -= drain_current(drain, y[from]);
    }
    if to < n.value {
        if to != from {
            nets[to] -= drain_current(drain, y[to]);
        }
    }
}

// What is drained at an end of this voltage, in kA.
fn drain_current(drain: Drain, v_kv: f64) -> f64
    ensures { result ≡ drain_current drain v_kv }
{
    v_kv * 1000.0 / drain.resistance * drain.fraction
}

// The rates of the voltages in kV/s.
fn station_rates(dy: &mut [f64; 96], network: &Network, nets: &[f64; MOST_STATIONS])
    ensures { dy.new ≡ over (stations_in network.now) (λ i. of nets.now i ⊘ of network.now.capacitance_f i) nan dy.old }
{
    let n = StationCount::of(network.n_stations).value;
    for i in 0..n {
        let s = StationStage {
            net_current_ka: nets[i],
            capacitance_f: network.capacitance_f[i],
        };
        dy[i] = station_rate(s);
    }
}

fn station_rate(s: StationStage) -> f64
    ensures { result ≡ s.net_current_ka ⊘ s.capacitance_f }
{
    s.net_current_ka / s.capacitance_f
}

// The rates of the cable currents in kA/s, behind those of the voltages. The ends of a cable are cut to the last station.
fn cable_rates(dy: &mut [f64; 96], network: &Network, y: &[f64; 96])
    ensures { dy.new ≡ over (stations_in network.now + cables_in network.now) (λ i. cond (ltb i (stations_in network.now)) (of dy.old i) (cable_rate (end network.now.from) (end network.now.to) (of network.now.resistance_ohm) (of network.now.inductance_h) (stations_in network.now) y.now (i - stations_in network.now))) nan dy.old }
{
    let n = StationCount::of(network.n_stations).value;
    let m = CableCount::of(network.n_cables).value;
    for k in 0..m {
        let cable = CableStage {
            v_from_kv: y[cut_end(network.from[k] as u64, n)],
            v_to_kv: y[cut_end(network.to[k] as u64, n)],
            current_ka: y[n + k],
            resistance_ohm: network.resistance_ohm[k],
            inductance_h: network.inductance_h[k],
        };
        dy[n + k] = cable_rate(cable);
    }
}

fn cable_rate(c: CableStage) -> f64
    ensures { result ≡ (c.v_from_kv ⊖ c.v_to_kv ⊖ c.resistance_ohm ⊗ c.current_ka) ⊘ c.inductance_h }
{
    (c.v_from_kv - c.v_to_kv - c.resistance_ohm * c.current_ka) / c.inductance_h
}
