// What an advance does with one case: its steps, and the case that is open next.
ghost use Rattle.std.specs.Prelude.{◌≡◌, cond, ◌-◌, min};
ghost use Rattle.case_steps.specs.OpenCases.{start_case, no_case};
ghost use Rattle.case_steps.specs.Plans.{plan_case_from};
ghost use Rattle.sweep_cases.specs.Plans.{window_for, common_of, plan_at, plan_for};

use breaker_times::fastest_breaker_clearing_ms;
use case_steps::{OpenCase, case_steps, first_open_case, no_open_case};
use fault_cases::{CasePlace, case_place, fault_at};
use fault_plan::{FaultPlan, fault_constants};
use fault_window::{FaultTimes, Window, fault_window};
use grid::{DcSwitchingSimulator, SweepOrder};
use network::{Network, network_of};
use run_start::rated_voltages;
use timing::{time_step_ms, total_steps};

// What all cases have in common, worked out once for an advance.
#[derive(Clone, Copy)]
pub struct Common {
    pub grid: DcSwitchingSimulator,
    pub order: SweepOrder,
    pub network: Network,
    pub rated_kv: [f64; 96],
    // The steps of one case.
    pub n_steps: u64,
    // The steps in which the fault of a case lasts, from its first step on: the same for each case. Empty where the call closes none.
    pub window: Window,
}

// What the cases of any grid and order have in common, for a call that closes cases or does not.
#[tactic(auto, unfolding(crate::specs::Plans::common_of))]
pub fn common_of(g: DcSwitchingSimulator, order: SweepOrder, closes: bool) -> Common
    ensures { result ≡ common_of g order closes }
{
    let network = network_of(g);
    let rated_kv = rated_voltages(g);
    let n_steps = total_steps(g);
    let window = window_of(g, order, n_steps, closes);
    Common {
        grid: g,
        order,
        network,
        rated_kv,
        n_steps,
        window,
    }
}

// The steps in which the fault of a case lasts. They are looked for only where a call closes cases: one of a few steps is not to look through all steps of a case.
#[tactic(auto, unfolding(crate::specs::Plans::window_for))]
fn window_of(g: DcSwitchingSimulator, order: SweepOrder, n_steps: u64, closes: bool) -> Window
    ensures { result ≡ window_for g order n_steps closes }
{
    if closes {
        let times = FaultTimes {
            dt_ms: time_step_ms(g),
            inception_ms: order.inception_time_ms,
            clear_ms: fastest_breaker_clearing_ms(g),
        };
        return fault_window(times, false, 0, n_steps);
    }
    Window {
        from: 0,
        to: 0,
        clears: false,
    }
}

// How many steps of a case a call makes that leaves it open: as many as are allowed, but not the last one; 0 where none is left.
pub fn steps_left_open(left: u64, allowed: u64) -> u64
    ensures { result ≡ min allowed (left - 1) }
{
    allowed.min(left.saturating_sub(1))
}

// Case k after the steps from the number `first` up to `end`, which is not made. The circuit and the drain are worked out once.
pub fn make_steps(common: Common, k: u64, first: u64, end: u64, c: OpenCase) -> OpenCase
    ensures { result ≡ plan_case_from (plan_for common k) first c (end - first) }
{
    let order = common.order;
    let plan = plan_at(common, case_place(order, k));
    case_steps(plan, first, end, c)
}

// What stays the same in the steps of the case at a place.
pub fn plan_at(common: Common, place: CasePlace) -> FaultPlan
    ensures { result ≡ plan_at common place }
{
    let g = common.grid;
    let order = common.order;
    let network = common.network;
    let rated_kv = common.rated_kv;
    let constants = fault_constants(g, fault_at(order, place));
    FaultPlan {
        constants,
        network,
        rated_kv,
    }
}

// The case that is open next, before its first step; all zero and false where none is left.
pub fn open_case(g: DcSwitchingSimulator, none_left: bool) -> OpenCase
    ensures { result ≡ cond none_left no_case (start_case g) }
{
    if none_left {
        return no_open_case();
    }
    first_open_case(g)
}
