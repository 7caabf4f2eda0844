// Steps of a case, one by one: a step of its fault run, and what the reasons ask of that step.
ghost use Rattle.std.specs.Prelude.{◌≡◌, true, ◌-◌};
ghost use Rattle.case_steps.specs.OpenCases.{clearing_after};
ghost use Rattle.case_steps.specs.Plans.{plan_detected, plan_case_step, plan_case_from};

use crate::open_case::OpenCase;
use detection::detects;
use fault_plan::{FaultPlan, FaultVariables};
use fault_step::fault_step;

// The case after the steps from the number `first` up to `end`, which is not made.
#[tactic(auto, using(crate::proofs::Left::one_more, crate::proofs::Left::none_left))]
pub fn case_steps(plan: FaultPlan, first: u64, end: u64, start: OpenCase) -> OpenCase
    ensures { result ≡ plan_case_from plan first start (end - first) }
{
    let mut c = start;
    for step in first..end {
        if c.detected {
            return detected_steps(plan, step, end, c);
        }
        c = case_step(plan, step, c);
    }
    c
}

// The same of a case in which a step is detected: none is looked at any more, and the variables alone are carried along.
#[tactic(auto, using(crate::proofs::Left::one_more, crate::proofs::Left::none_left))]
fn detected_steps(plan: FaultPlan, first: u64, end: u64, start: OpenCase) -> OpenCase
    requires { start.detected ≡ true }
    ensures { result ≡ plan_case_from plan first start (end - first) }
{
    let mut v = start.variables;
    let mut clearing_current_ka = start.clearing_current_ka;
    for step in first..end {
        let cleared = v.fault_cleared;
        v = fault_step(plan, step, v);
        clearing_current_ka = clearing_current(cleared, v, clearing_current_ka);
    }
    OpenCase {
        variables: v,
        detected: true,
        clearing_current_ka,
    }
}

// The fault current of a step that clears the fault, and else the one from before.
fn clearing_current(cleared_before: bool, after: FaultVariables, before_ka: f64) -> f64
    ensures { result ≡ clearing_after cleared_before after before_ka }
{
    if cleared_before {
        return before_ka;
    }
    if after.fault_cleared {
        let state = after.state;
        return state.fault_current_ka;
    }
    before_ka
}

// The case after one step.
#[tactic(auto, unfolding(crate::specs::Plans::plan_case_step))]
fn case_step(plan: FaultPlan, step: u64, c: OpenCase) -> OpenCase
    ensures { result ≡ plan_case_step plan step c }
{
    let before = c.variables;
    let after = fault_step(plan, step, before);
    OpenCase {
        variables: after,
        detected: is_detected(plan, step, c, after),
        clearing_current_ka: clearing_current(before.fault_cleared, after, c.clearing_current_ka),
    }
}

// Whether a step that reason 8 counts is detected, this one or one before. Once one is, none is looked at any more.
fn is_detected(plan: FaultPlan, step: u64, c: OpenCase, after: FaultVariables) -> bool
    ensures { result ≡ plan_detected plan step c after }
{
    if c.detected {
        return true;
    }
    let before = c.variables;
    // Reason 8 counts the steps from 1 up to the clearing one.
    if (step < 1) | before.fault_cleared {
        return false;
    }
    let network = plan.network;
    let rated = plan.rated_kv;
    let state = after.state;
    let prev = before.state;
    detects(&rated, network.n_stations, network.n_cables, state, prev)
}
