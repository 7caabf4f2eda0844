// What 000's simulate_switching works out ahead of its loop: what does not change in it, and the variables' initial values.
ghost use Rattle.std.specs.Prelude.{◌≡◌, ◌+◌, ◌≤◌, length};
ghost use Rattle.lists.specs.Tables.{padded};
ghost use Rattle.float64.specs.Constants.{nought};
ghost use Rattle.run_start.specs.Start.{rated};
ghost use Rattle.switching_plan.specs.Switching.{driven_current, driven, before_switching};
ghost use Rattle.switching_plan.specs.Plans.{switching_plan_of};

use crate::variables::SwitchingVariables;
use grid::{
    BreakerCount, ConverterStation, DcCable, DcSwitchingSimulator, MOST_STATIONS, StationCount,
    cable_resistance, cut_end,
};
use network::{Network, network_of};
use run_start::{breakers_all, rated_voltages};
use state_derivatives::DcTransientState;
use timing::{duration_ms, time_step_ms};

// All that stays the same in every step of a switching run, worked out once. The operation is 000's two arguments, a number and whether it opens.
#[derive(Clone, Copy)]
pub struct SwitchingPlan {
    pub network: Network,
    pub n_breakers: usize,
    pub breaker_id: u64,
    pub open: bool,
    pub dt_ms: f64,
    pub switching_time_ms: f64,
}

// What stays the same in the steps of any operation on any grid. It comes when a tenth of the duration is over.
#[tactic(auto, unfolding(crate::specs::Plans::switching_plan_of))]
pub fn switching_plan(g: DcSwitchingSimulator, breaker_id: u64, open: bool) -> SwitchingPlan
    ensures { result ≡ switching_plan_of g breaker_id «open» }
{
    SwitchingPlan {
        network: network_of(g),
        n_breakers: BreakerCount::of(g.n_breakers).value,
        breaker_id,
        open,
        dt_ms: time_step_ms(g),
        switching_time_ms: duration_ms(g) * 0.1,
    }
}

// The initial values of 000's variables: rated voltages, the currents that they drive, and the breakers at the state that the operation then sets.
pub fn first_switching_variables(g: DcSwitchingSimulator, open: bool) -> SwitchingVariables
    ensures { result ≡ before_switching g «open» }
{
    let n = StationCount::of(g.n_stations);
    let mut y = rated_voltages(g);
    drive_currents(&mut y, &g.stations, n, g.present_cables());
    let station_currents_ka = [0.0; MOST_STATIONS];
    let state = DcTransientState {
        time_ms: 0.0,
        y,
        station_currents_ka,
        fault_current_ka: 0.0,
        breaker_states: breakers_all(g.n_breakers, !open),
    };
    SwitchingVariables {
        state,
        switched: false,
    }
}

// Writes the current that rated voltages drive through each cable, behind the voltages. The stations are the whole array, here and below: where there are none,
// a cable's ends are cut to the first place all the same.
fn drive_currents(
    y: &mut [f64; 96],
    stations: &[ConverterStation; MOST_STATIONS],
    n: StationCount,
    cables: &[DcCable],
)
    requires voltages { y.old ≡ padded 96 n.value (λ i. rated stations.now i) nought }
    requires room { n.value + length cables.now ≤ 96 }
    ensures { y.new ≡ padded 96 (n.value + length cables.now) (driven stations.now cables.now n.value) nought }
{
    for (k, c) in cables.iter().enumerate() {
        y[n.value + k] = driven_current(stations, n, *c);
    }
}

// The current in kA that rated voltages drive through a cable. Its ends are cut to the last station.
fn driven_current(stations: &[ConverterStation; MOST_STATIONS], n: StationCount, c: DcCable) -> f64
    ensures { result ≡ driven_current stations.now n.value c }
{
    let from = stations[cut_end(c.from_station, n.value)];
    let to = stations[cut_end(c.to_station, n.value)];
    (from.v_dc_rated_kv - to.v_dc_rated_kv) / cable_resistance(c)
}
