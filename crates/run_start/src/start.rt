// What fault runs and switching runs have in common: the time of a step, and the voltages and breakers that they begin with.
ghost use Rattle.std.specs.Prelude.{◌≡◌, min, false};
ghost use Rattle.lists.specs.Tables.{padded};
ghost use Rattle.run_start.specs.Start.{time_at, rated_of};

use grid::{BreakerCount, DcSwitchingSimulator, MOST_BREAKERS};
use std::num::nearest_u64_to_f64;

// The time of a step in milliseconds. Steps are numbered from 0.
pub fn step_time_ms(dt_ms: f64, step: u64) -> f64
    ensures { result ≡ time_at dt_ms step }
{
    nearest_u64_to_f64(step) * dt_ms
}

// The rated voltage of each station, in the places that the voltages have in a state; zeros past them.
pub fn rated_voltages(g: DcSwitchingSimulator) -> [f64; 96]
    ensures { result ≡ rated_of g }
{
    let mut y = [0.0; 96];
    for (i, s) in g.present_stations().iter().enumerate() {
        y[i] = s.v_dc_rated_kv;
    }
    y
}

// The states of n_breakers breakers, all closed or all open; open past them.
pub fn breakers_all(n_breakers: usize, closed: bool) -> [bool; MOST_BREAKERS]
    ensures { result ≡ padded 32 (min n_breakers 32) (λ _. closed) false }
{
    let n = BreakerCount::of(n_breakers);
    let mut breakers = [false; MOST_BREAKERS];
    for i in 0..n.value {
        breakers[i] = closed;
    }
    breakers
}
