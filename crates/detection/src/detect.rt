// A fault shows in a current that changes fast, or in a voltage far below rated.
ghost use Rattle.std.specs.Prelude.{◌≡◌, ◌+◌, IfOk};
ghost use Rattle.lists.specs.Scans.{some};
ghost use Rattle.float64.specs.Arithmetic.{of};
ghost use Rattle.rules.specs.Studies.{number_of, detection_refusal};
ghost use Rattle.detection.specs.Detection.{time_between, fast, low, shown_by, detected_by, detection};

use float64::{abs, max};
use grid::{CableCount, DcSwitchingSimulator, StationCount};
use rules::{Refusal, check_detection};
use run_start::rated_voltages;
use state_derivatives::DcTransientState;

// DcSwitchingSimulator::detect_fault
#[tactic(auto, unfolding(rules::specs::Studies::number_of))]
pub fn detect_fault(
    g: DcSwitchingSimulator,
    state: DcTransientState,
    prev: DcTransientState,
) -> Result<bool, Refusal>
    ensures refusal { number_of result ≡ detection_refusal g }
    ensures answer { IfOk result (λ detected. detected ≡ detection g state prev) }
{
    check_detection(g)?;
    let rated = rated_voltages(g);
    Ok(detects(&rated, g.n_stations, g.n_cables, state, prev))
}

// Whether a fault shows between two states of a grid that is known to be accepted, by its counts and its rated voltages: what a sweep asks after each step.
// Here and below several arrays share the counts: as slices each would need a clause that it is as long as the others.
#[tactic(auto, unfolding(crate::specs::Detection::detected_by))]
pub fn detects(
    rated_kv: &[f64; 96],
    n_stations: usize,
    n_cables: usize,
    state: DcTransientState,
    prev: DcTransientState,
) -> bool
    ensures { result ≡ detected_by rated_kv.now n_stations n_cables state prev }
{
    let now = Seen {
        time_ms: state.time_ms,
        y: &state.y,
    };
    let before = Seen {
        time_ms: prev.time_ms,
        y: &prev.y,
    };
    shows_fault(rated_kv, n_stations, n_cables, now, before)
}

// What detection reads of a state.
#[derive(Clone, Copy)]
pub struct Seen<'a> {
    pub time_ms: f64,
    // voltages, then cable currents
    pub y: &'a [f64; 96],
}

// The same from the voltages, cable currents and times of the two states alone. A count past the arrays takes all of them.
#[tactic(auto, unfolding(crate::specs::Detection::shown_by))]
pub fn shows_fault(
    rated_kv: &[f64; 96],
    n_stations: usize,
    n_cables: usize,
    now: Seen,
    before: Seen,
) -> bool
    ensures { result ≡ shown_by rated_kv.now n_stations n_cables now.entry.y.now before.entry.y.now now.entry.time_ms before.entry.time_ms }
{
    let n = StationCount::of(n_stations);
    let m = CableCount::of(n_cables);
    let dt_ms = time_between(now.time_ms, before.time_ms);
    let fast = some_current_fast(now.y, before.y, dt_ms, n, m);
    let low = some_voltage_low(rated_kv, now.y, n);
    fast | low
}

// The time between two states in milliseconds, whichever is the earlier; at least 1e-9.
fn time_between(time_ms: f64, before_ms: f64) -> f64
    ensures { result ≡ time_between time_ms before_ms }
{
    max(abs(time_ms - before_ms), 0.000000001)
}

// Whether the current of some cable changes fast.
fn some_current_fast(
    y: &[f64; 96],
    before: &[f64; 96],
    dt_ms: f64,
    n: StationCount,
    m: CableCount,
) -> bool
    ensures { result ≡ some m.value (λ k. fast dt_ms (of y.now (n.value + k)) (of before.now (n.value + k))) }
{
    for k in 0..m.value {
        if is_fast(dt_ms, y[n.value + k], before[n.value + k]) {
            return true;
        }
    }
    false
}

// Whether a current changes by more than 10 kA in a millisecond.
fn is_fast(dt_ms: f64, current: f64, before: f64) -> bool
    ensures { result ≡ fast dt_ms current before }
{
    abs(current - before) / dt_ms > 10.0
}

// Whether the voltage of some station is low.
fn some_voltage_low(rated_kv: &[f64; 96], y: &[f64; 96], n: StationCount) -> bool
    ensures { result ≡ some n.value (λ i. low (of y.now i) (of rated_kv.now i)) }
{
    for i in 0..n.value {
        if is_low(y[i], rated_kv[i]) {
            return true;
        }
    }
    false
}

// Whether a voltage is below 80 percent of rated.
fn is_low(v: f64, rated: f64) -> bool
    ensures { result ≡ low v rated }
{
    v < 0.8 * rated
}
