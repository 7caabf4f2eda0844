// The fault's current at sixteen times, before the factor of its type: the three types of fault at one place share it.
ghost use Rattle.std.specs.Prelude.{◌≡◌};
ghost use Rattle.std.specs.Float.{nan};
ghost use Rattle.lists.specs.Tables.{tab, over};
ghost use Rattle.float64.specs.Constants.{kilo};
ghost use Rattle.float64.specs.Arithmetic.{◌⊗◌, ◌⊘◌, of};
ghost use Rattle.float64.specs.Choice.{abs_of};
ghost use Rattle.fault_current.specs.Current as specs;
ghost use Rattle.fault_current.specs.Current.{seconds_since};
ghost use Rattle.fault_currents.specs.Sites.{site_current};

use crate::currents::{critical_amperes, no_amperes, overdamped_amperes, underdamped_amperes};
use fault_circuit::{FaultCircuit, Response};
use float64::{abs, max};
use lanes::LANES;

// In kA, whatever out held. A time before the inception counts as the inception.
pub fn site_currents_ka(out: &mut [f64; LANES], circuit: FaultCircuit, t_ms: &[f64; LANES])
    ensures { out.new ≡ tab LANES (λ j. site_current circuit (of t_ms.now j)) }
{
    let response = circuit.response;
    let mut t = [0.0; LANES];
    seconds_since(&mut t, circuit.inception_time_ms, t_ms);
    *out = [0.0; LANES];
    amperes(out, response, &t);
    to_kiloamperes(out, circuit.resistance_factor);
}

// Seconds from a moment to each time, both in milliseconds; 0 before that moment.
fn seconds_since(t: &mut [f64; LANES], moment_ms: f64, t_ms: &[f64; LANES])
    ensures { t.new ≡ over LANES (λ j. seconds_since moment_ms (of t_ms.now j)) nan t.old }
{
    for j in 0..LANES {
        t[j] = max(t_ms[j] - moment_ms, 0.0) * 0.001;
    }
}

// The response is told apart once for all lanes.
fn amperes(i: &mut [f64; LANES], response: Response, t: &[f64; LANES])
    ensures { i.new ≡ over LANES (λ j. specs.amperes response (of t.now j)) nan i.old }
{
    match response {
        Response::Underdamped {
            gain,
            alpha,
            omega_d,
        } => underdamped_amperes(i, t, gain, alpha, omega_d),
        Response::Overdamped { gain, s1, s2 } => overdamped_amperes(i, t, gain, s1, s2),
        Response::Critical { gain, alpha } => critical_amperes(i, t, gain, alpha),
        Response::Still => no_amperes(i),
    }
}

// The size of the current, in kA, times the factor.
fn to_kiloamperes(i: &mut [f64; LANES], factor: f64)
    ensures { i.new ≡ over LANES (λ j. abs_of (of i.old j) ⊘ kilo ⊗ factor) nan i.old }
{
    for j in 0..LANES {
        i[j] = abs(i[j]) / 1000.0 * factor;
    }
}
