// The outcome of a case that a call closes.
ghost use Rattle.std.specs.Prelude.{◌≡◌};
ghost use Rattle.closed_cases.specs.Cables.{in_site, window_in, end_for, closed_by};

use crate::cable::{CableEnds, is_tried};
use case_ends::{SiteEnds, case_end};
use case_reasons::CaseOutcome;
use case_steps::OpenCase;
use fault_cases::{CasePlace, case_place, type_of};
use fault_plan::FaultConstants;
use fault_window::{FaultTimes, Window, fault_window};
use grid::DcFaultType;
use sweep_cases::{Common, plan_at};

// A case as the call has it that closes it.
#[derive(Clone, Copy)]
pub struct CaseToClose {
    pub number: u64,
    // Steps made of it.
    pub made: u64,
    // After these steps.
    pub kept: OpenCase,
    // Opened by the same call, so that none of its steps is made. `made` does not tell: what was kept before the call may be any variables.
    pub fresh: bool,
}

// The outcome of a case. One that is fresh is looked up where its cable is held.
#[tactic(auto, unfolding(crate::specs::Cables::closed_by))]
pub fn closed_outcome(common: Common, ends: Option<CableEnds>, case: CaseToClose) -> CaseOutcome
    ensures { result ≡ closed_by common ends case.fresh case.number case.made case.kept }
{
    let order = common.order;
    let place = case_place(order, case.number);
    if let Some(held) = ends {
        if case.fresh & (held.cable == place.cable) & is_tried(order, place.tenth) {
            let sites = held.sites;
            let tenth = place.tenth as usize;
            return in_site(sites[tenth], type_of(place.fault_type));
        }
    }
    end_for(common, place, case.made, case.kept)
}

// The outcome of a type of fault at a place: a field for each, which no conversion says.
fn in_site(site: SiteEnds, fault_type: DcFaultType) -> CaseOutcome
    ensures { result ≡ in_site site fault_type }
{
    match fault_type {
        DcFaultType::PoleToGround => site.to_ground,
        DcFaultType::PoleToPole => site.pole,
        DcFaultType::ConverterInternal => site.internal,
    }
}

// The outcome worked out from what is kept of the case.
fn end_for(common: Common, place: CasePlace, made: u64, c: OpenCase) -> CaseOutcome
    ensures { result ≡ end_for common place made c }
{
    let plan = plan_at(common, place);
    let v = c.variables;
    let whole = common.window;
    let constants = plan.constants;
    let window = window_in(whole, constants, common.n_steps, made, v.fault_active);
    case_end(plan, made, window, c)
}

// The steps in which the fault of a case lasts: those of all cases from their first step on, unless steps are made or the fault is
// active already.
fn window_in(whole: Window, k: FaultConstants, n_steps: u64, made: u64, active: bool) -> Window
    ensures { result ≡ window_in whole k n_steps made active }
{
    if (made == 0) & !active {
        return whole;
    }
    let circuit = k.circuit;
    let times = FaultTimes {
        dt_ms: k.dt_ms,
        inception_ms: circuit.inception_time_ms,
        clear_ms: k.breaker_clear_ms,
    };
    fault_window(times, active, made, n_steps)
}
