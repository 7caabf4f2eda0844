// Grids and states that are all zero and false, as definitions of runs and sweeps that are not started have them.
ghost use Rattle.std.specs.Prelude.{◌≡◌};
ghost use Rattle.runs.specs.Blank.{blank_grid, blank_state};

use grid::{DcSwitchingSimulator, MOST_BREAKERS, MOST_STATIONS};
use state_derivatives::DcTransientState;

// A grid that is all zero. `new` raises both times, so they are set again.
pub fn blank_grid() -> DcSwitchingSimulator
    ensures { result ≡ blank_grid }
{
    let mut g = DcSwitchingSimulator::new(0.0, 0.0);
    g.dt_us = 0.0;
    g.duration_ms = 0.0;
    g
}

// A state that is all zero and false.
pub fn blank_state() -> DcTransientState
    ensures { result ≡ blank_state }
{
    let y = [0.0; 96];
    let station_currents_ka = [0.0; MOST_STATIONS];
    let breaker_states = [false; MOST_BREAKERS];
    DcTransientState {
        time_ms: 0.0,
        y,
        station_currents_ka,
        fault_current_ka: 0.0,
        breaker_states,
    }
}
