// The circuit's response, with what does not depend on the time worked out once.
ghost use Rattle.std.specs.Prelude.{◌≡◌};
ghost use Rattle.fault_circuit.specs.Circuit as specs;
ghost use Rattle.fault_circuit.specs.Circuit.{response_of, underdamped_response, overdamped_response, resistance_factor, type_factor, decay_tau, circuit_of};

use crate::parameters::{RlcParameters, fault_rlc_params};
use float64::{abs, max};
use grid::{DcFaultEvent, DcFaultType, DcSwitchingSimulator};
use square_root::sqrt;

// The least inductance, resistance and time constant to divide by. What is smaller is raised to it.
const LEAST: f64 = 0.000000001;

// The least capacitance to divide by. A frequency, or a distance between two roots, is divided by where it is above this.
const TINY: f64 = 0.000000000001;

// The current in amperes, t seconds after inception. No current at any time is one of its forms, and not the want of one, so that no Option
// stands around them.
#[derive(Clone, Copy)]
pub enum Response {
    // gain * E(-alpha t) * S(omega_d t)
    Underdamped { gain: f64, alpha: f64, omega_d: f64 },
    // gain * (E(s1 t) - E(s2 t))
    Overdamped { gain: f64, s1: f64, s2: f64 },
    // gain * t * E(-alpha t)
    Critical { gain: f64, alpha: f64 },
    // 0: underdamped, and omega_d is not above 1e-12
    Still,
}

// What a fault run needs of the grid and the fault to find the current at any time.
#[derive(Clone, Copy)]
pub struct FaultCircuit {
    pub response: Response,
    pub resistance_factor: f64,
    pub type_factor: f64,
    pub decay_tau_s: f64,
    pub inception_time_ms: f64,
    pub r_total_ohm: f64,
    pub r_fault_ohm: f64,
}

// The circuit of any fault on any grid, worked out once for a run: the root is taken here, and not in each step.
#[tactic(auto, unfolding(crate::specs::Circuit::circuit_at))]
pub fn fault_circuit(g: DcSwitchingSimulator, fault: DcFaultEvent) -> FaultCircuit
    ensures { result ≡ circuit_of g fault }
{
    let p = fault_rlc_params(g, fault);
    let response = response_of(p);
    let kind = fault.fault_type;
    FaultCircuit {
        response,
        resistance_factor: resistance_factor(p),
        type_factor: type_factor(kind),
        decay_tau_s: decay_tau(p),
        inception_time_ms: fault.inception_time_ms,
        r_total_ohm: p.r_total_ohm,
        r_fault_ohm: p.r_fault_ohm,
    }
}

// Which response the circuit has by its damping, and with which constants.
#[tactic(auto, unfolding(crate::specs::Circuit::response_of))]
fn response_of(p: RlcParameters) -> Response
    ensures { result ≡ response_of p }
{
    let l = max(p.l_total_mh * 0.001, LEAST);
    let c = max(p.c_total_uf * 0.000001, TINY);
    let v = p.v_dc_kv * 1000.0;
    let alpha = p.r_total_ohm / (2.0 * l);
    let omega0_sq = 1.0 / (l * c);
    if alpha * alpha < omega0_sq {
        return underdamped_response(v, l, alpha, omega0_sq);
    }
    overdamped_response(v, l, alpha, omega0_sq)
}

// A current that swings; Still where it would swing too slowly to divide by the frequency.
#[tactic(auto, unfolding(crate::specs::Circuit::underdamped_response))]
fn underdamped_response(v: f64, l: f64, alpha: f64, omega0_sq: f64) -> Response
    ensures { result ≡ specs.underdamped_response v l alpha omega0_sq }
{
    let omega_d = sqrt(max(omega0_sq - alpha * alpha, 0.0));
    if omega_d > TINY {
        return Response::Underdamped {
            gain: v / (omega_d * l),
            alpha,
            omega_d,
        };
    }
    Response::Still
}

// A current that does not swing: two roots, or one (Critical) where they are too near to each other to divide by their distance.
#[tactic(auto, unfolding(crate::specs::Circuit::overdamped_response))]
fn overdamped_response(v: f64, l: f64, alpha: f64, omega0_sq: f64) -> Response
    ensures { result ≡ specs.overdamped_response v l alpha omega0_sq }
{
    let disc = sqrt(max(alpha * alpha - omega0_sq, 0.0));
    let s1 = -alpha + disc;
    let s2 = -alpha - disc;
    if abs(s1 - s2) > TINY {
        return Response::Overdamped {
            gain: v / (l * (s1 - s2)),
            s1,
            s2,
        };
    }
    Response::Critical { gain: v / l, alpha }
}

// What the fault's own resistance leaves of the current: all of it at 0 ohms.
fn resistance_factor(p: RlcParameters) -> f64
    ensures { result ≡ resistance_factor p }
{
    1.0 / (1.0 + p.r_fault_ohm / (p.r_total_ohm + LEAST))
}

// The factor of the fault's type on the current, a number of 000's for each: pole to pole has the most.
#[tactic(auto, unfolding(crate::specs::Circuit::type_factor))]
fn type_factor(kind: DcFaultType) -> f64
    ensures { result ≡ type_factor kind }
{
    match kind {
        DcFaultType::PoleToGround => 0.5,
        DcFaultType::PoleToPole => 1.0,
        DcFaultType::ConverterInternal => 0.7,
    }
}

// The time constant in seconds with which the current fades after clearing, at least LEAST.
fn decay_tau(p: RlcParameters) -> f64
    ensures { result ≡ decay_tau p }
{
    max(p.l_total_mh * 0.001 / max(p.r_total_ohm, LEAST), LEAST)
}
