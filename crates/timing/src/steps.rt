// The time of a run: how many steps it has, and which of them are recorded.
ghost use Rattle.std.specs.Prelude.{◌≡◌, ◌-◌};
ghost use Rattle.timing.specs.Steps.{time_step_ms, duration_ms, steps_of, steps_of_quotient, counted_to, interval_of, recorded, records_of, record_length};

use grid::{
    BreakerCount, CableCount, DcSwitchingSimulator, LEAST_DURATION_MS, LEAST_TIME_STEP_US,
    StationCount,
};

pub const MOST_STEPS: u64 = 1000000;

// The time step that a study uses, in 000's dt_ms.
pub fn time_step_ms(g: DcSwitchingSimulator) -> f64
    ensures { result ≡ time_step_ms g }
{
    float64::max(g.dt_us, LEAST_TIME_STEP_US) / 1000.0
}

// The duration that a study uses.
pub fn duration_ms(g: DcSwitchingSimulator) -> f64
    ensures { result ≡ duration_ms g }
{
    float64::max(g.duration_ms, LEAST_DURATION_MS)
}

// 000's total_steps, counted to one past the limit.
pub fn total_steps(g: DcSwitchingSimulator) -> u64
    ensures { result ≡ counted_to (steps_of g) }
{
    steps_up_to_limit(duration_ms(g) / time_step_ms(g))
}

// q rounded up, at least 1. The whole part of a double is a double, and casts in its range lose nothing.
fn steps_up_to_limit(q: f64) -> u64
    ensures { result ≡ counted_to (steps_of_quotient q) }
{
    // MOST_STEPS, as a double.
    if 1000000.0 < q {
        return MOST_STEPS + 1;
    }
    if 1.0 < q {
        let w = float64::whole_part(q);
        let n = w as u64;
        return if w < q { n + 1 } else { n };
    }
    1
}

// 000's record_interval
pub fn record_interval(total_steps: u64) -> u64
    ensures { result ≡ interval_of total_steps }
{
    (total_steps / 5000).max(1)
}

// Whether a run of so many steps records a step: a multiple of the interval, or the last one.
pub fn is_recorded(step: u64, total_steps: u64) -> bool
    ensures { result ≡ recorded total_steps step }
{
    (step % record_interval(total_steps) == 0) | (step == total_steps.saturating_sub(1))
}

// How many steps of a run are recorded: the multiples of the interval before the last step, and the last.
pub fn recorded_steps(total_steps: u64) -> u64
    ensures { result ≡ records_of total_steps }
{
    if total_steps < 1 {
        return 0;
    }
    (total_steps - 1).div_ceil(record_interval(total_steps)) + 1
}

// How many numbers a record has.
pub fn record_length(g: DcSwitchingSimulator) -> usize
    ensures { result ≡ record_length g }
{
    let stations = StationCount::of(g.n_stations);
    let cables = CableCount::of(g.n_cables);
    let breakers = BreakerCount::of(g.n_breakers);
    2 + 2 * stations.value + cables.value + breakers.value
}
