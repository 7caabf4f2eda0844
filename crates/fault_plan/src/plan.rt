// What 000's simulate_fault works out ahead of its loop: what does not change in it, and the variables' initial values.
ghost use Rattle.std.specs.Prelude.{◌≡◌};
ghost use Rattle.fault_plan.specs.Fault.{before_loop};
ghost use Rattle.fault_plan.specs.Plans.{constants_of, plan_of};

use crate::variables::{FaultVariables, fresh_variables};
use breaker_times::fastest_breaker_clearing_ms;
use fault_circuit::{FaultCircuit, fault_circuit};
use grid::{DcFaultEvent, DcSwitchingSimulator, MOST_STATIONS, StationCount};
use network::{Drain, Network, drain_of, network_of};
use run_start::{breakers_all, rated_voltages};
use state_derivatives::DcTransientState;
use timing::{duration_ms, time_step_ms};

// What stays the same in every step of a fault run, less the tables that the grid alone decides.
#[derive(Clone, Copy)]
pub struct FaultConstants {
    pub n_stations: usize,
    pub drain: Drain,
    pub circuit: FaultCircuit,
    pub dt_ms: f64,
    pub duration_ms: f64,
    pub breaker_clear_ms: f64,
}

// All that stays the same, worked out once. The network and the rated voltages are those of every fault on the grid.
#[derive(Clone, Copy)]
pub struct FaultPlan {
    pub constants: FaultConstants,
    pub network: Network,
    // In the places that the voltages have in a state.
    pub rated_kv: [f64; 96],
}

// All that stays the same in the steps of any fault on any grid.
#[tactic(auto, unfolding(crate::specs::Plans::plan_of))]
pub fn fault_plan(g: DcSwitchingSimulator, fault: DcFaultEvent) -> FaultPlan
    ensures { result ≡ plan_of g fault }
{
    FaultPlan {
        constants: fault_constants(g, fault),
        network: network_of(g),
        rated_kv: rated_voltages(g),
    }
}

// The same without the tables that the grid alone decides.
#[tactic(auto, unfolding(crate::specs::Plans::constants_of))]
pub fn fault_constants(g: DcSwitchingSimulator, fault: DcFaultEvent) -> FaultConstants
    ensures { result ≡ constants_of g fault }
{
    FaultConstants {
        n_stations: StationCount::of(g.n_stations).value,
        drain: drain_of(g, fault),
        circuit: fault_circuit(g, fault),
        dt_ms: time_step_ms(g),
        duration_ms: duration_ms(g),
        breaker_clear_ms: fastest_breaker_clearing_ms(g),
    }
}

// The initial values of 000's variables: rated voltages, no current, all breakers closed.
#[tactic(auto, unfolding(crate::specs::Fault::before_loop, run_start::specs::Start::rated_of, lists::specs::Tables::blank))]
pub fn first_fault_variables(g: DcSwitchingSimulator) -> FaultVariables
    ensures { result ≡ before_loop g }
{
    let station_currents_ka = [0.0; MOST_STATIONS];
    let state = DcTransientState {
        time_ms: 0.0,
        y: rated_voltages(g),
        station_currents_ka,
        fault_current_ka: 0.0,
        breaker_states: breakers_all(g.n_breakers, true),
    };
    fresh_variables(state, duration_ms(g))
}
