// The fault's current at a time: while the fault lasts, and after it is cleared. The branches of 000's simulate_fault.
ghost use Rattle.std.specs.Prelude.{◌≡◌};
ghost use Rattle.fault_current.specs.Current as specs;
ghost use Rattle.fault_current.specs.Current.{seconds_since, current_of, decayed_of};

use elementary::{exp, sin};
use fault_circuit::{FaultCircuit, Response};
use float64::{abs, max};

// The current in kA at t_ms while the fault lasts. A time before inception counts as inception.
pub fn fault_current_ka(circuit: FaultCircuit, t_ms: f64) -> f64
    ensures { result ≡ current_of circuit t_ms }
{
    let response = circuit.response;
    let t = seconds_since(circuit.inception_time_ms, t_ms);
    abs(amperes(response, t)) / 1000.0 * circuit.resistance_factor * circuit.type_factor
}

// What is left at t_ms of the current that flowed when the fault was cleared; 0 once that is less than 1 mA.
pub fn decayed_current_ka(
    circuit: FaultCircuit,
    current_ka: f64,
    clearing_time_ms: f64,
    t_ms: f64,
) -> f64
    ensures { result ≡ decayed_of circuit current_ka clearing_time_ms t_ms }
{
    let t = seconds_since(clearing_time_ms, t_ms);
    let decayed = current_ka * exp(-t / circuit.decay_tau_s);
    if decayed < 0.000001 {
        return 0.0;
    }
    decayed
}

// The circuit's current in amperes, t seconds after inception. A current that swings has both signs.
fn amperes(response: Response, t: f64) -> f64
    ensures { result ≡ specs.amperes response t }
{
    match response {
        Response::Underdamped {
            gain,
            alpha,
            omega_d,
        } => gain * exp(-alpha * t) * sin(omega_d * t),
        Response::Overdamped { gain, s1, s2 } => gain * (exp(s1 * t) - exp(s2 * t)),
        Response::Critical { gain, alpha } => gain * t * exp(-alpha * t),
        Response::Still => 0.0,
    }
}

// Seconds from a moment to a time, both in milliseconds; 0 before that moment.
fn seconds_since(moment_ms: f64, t_ms: f64) -> f64
    ensures { result ≡ seconds_since moment_ms t_ms }
{
    max(t_ms - moment_ms, 0.0) * 0.001
}
