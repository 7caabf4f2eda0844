// The outcome of a case at its end, from the steps in which its fault lasts: after clearing nothing of it changes, and once a step is
// detected it does not depend on the state of the network.
ghost use Rattle.std.specs.Prelude.{◌≡◌, Bool, cond};
ghost use Rattle.case_steps.specs.OpenCases.{start_case};
ghost use Rattle.case_ends.specs.Ends.{end_by, outcome_from, site_of};

use case_detection::is_detected_within;
use case_reasons::CaseOutcome;
use case_steps::{OpenCase, case_outcome, first_open_case};
use fault_plan::FaultPlan;
use fault_sums::{Sums, fault_sums, site_sums};
use fault_window::Window;
use grid::DcSwitchingSimulator;

// The outcomes of the three types of fault at a place.
#[derive(Clone, Copy)]
pub struct SiteEnds {
    pub to_ground: CaseOutcome,
    pub pole: CaseOutcome,
    pub internal: CaseOutcome,
}

// The outcome of a case of which `first` steps are made, and whose fault lasts through the steps of a window.
#[tactic(auto, using(crate::proofs::Ways::cleared_end))]
pub fn case_end(plan: FaultPlan, first: u64, window: Window, c: OpenCase) -> CaseOutcome
    ensures { result ≡ end_by plan first window c }
{
    let v = c.variables;
    if v.fault_cleared {
        return case_outcome(c);
    }
    let k = plan.constants;
    let start = Sums {
        peak_ka: v.peak_fault_ka,
        energy_mj: v.energy_mj,
        current_ka: c.clearing_current_ka,
    };
    let circuit = k.circuit;
    let sums = fault_sums(circuit, k.dt_ms, window.from, window.to, start);
    let detected = is_detected_within(plan, first, window.to, c);
    outcome_from(window, sums, c.clearing_current_ka, detected)
}

// The outcomes of the cases of all three types at a place, none of whose steps is made: they are detected in the same step, and their currents
// differ by a factor alone. The plan is that of any of them.
pub fn site_ends(g: DcSwitchingSimulator, plan: FaultPlan, window: Window) -> SiteEnds
    ensures { result ≡ site_of plan window (start_case g) }
{
    let k = plan.constants;
    let circuit = k.circuit;
    let sums = site_sums(circuit, k.dt_ms, window.from, window.to);
    let detected = is_detected_within(plan, 0, window.to, first_open_case(g));
    let at_ground = sums.to_ground;
    let at_pole = sums.pole;
    let at_internal = sums.internal;
    let ground = outcome_from(window, at_ground, 0.0, detected);
    let pole = outcome_from(window, at_pole, 0.0, detected);
    let internal = outcome_from(window, at_internal, 0.0, detected);
    SiteEnds {
        to_ground: ground,
        pole,
        internal,
    }
}

fn outcome_from(window: Window, sums: Sums, before_ka: f64, detected: bool) -> CaseOutcome
    ensures { result ≡ outcome_from window sums before_ka detected }
{
    CaseOutcome {
        cleared: window.clears,
        clearing_current_ka: clearing_current(window.clears, sums.current_ka, before_ka),
        energy_mj: sums.energy_mj,
        peak_fault_ka: sums.peak_ka,
        detected,
    }
}

// The current of the last step where it clears the fault, and else the one from before. A function, so that the outcome has one path.
fn clearing_current(clears: bool, last_ka: f64, before_ka: f64) -> f64
    ensures { result ≡ cond clears last_ka before_ka }
{
    if clears { last_ka } else { before_ka }
}
