// 000's state of a grid at a time, and the numbers of it that a stage of a step works on, by value.
use grid::{MOST_BREAKERS, MOST_STATIONS};

#[derive(Clone, Copy)]
pub struct DcTransientState {
    pub time_ms: f64,
    // Voltages, then cable currents: 000's station_voltages_kv and cable_currents_ka, packed as in its rk4_step.
    pub y: [f64; 96],
    pub station_currents_ka: [f64; MOST_STATIONS],
    pub fault_current_ka: f64,
    // Whether each is closed.
    pub breaker_states: [bool; MOST_BREAKERS],
}

// The numbers of a state that a step moves: station voltages in kV, then cable currents in kA; zeros past them.
#[derive(Clone, Copy)]
pub struct StageState {
    pub y: [f64; 96],
}

// How fast each of them changes, per second, in the same places.
#[derive(Clone, Copy)]
pub struct StageSlopes {
    pub dy: [f64; 96],
}
