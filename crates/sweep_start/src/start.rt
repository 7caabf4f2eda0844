// The start of a sweep: refused, or the kept sweep after 0 steps.
ghost use Rattle.std.specs.Prelude.{◌≡◌, IfOk};
ghost use Rattle.rules.specs.Studies.{number_of};
ghost use Rattle.sweep_start.specs.Start.{sweep_refused, started_sweep};

use case_steps::first_open_case;
use fault_sweep::Sweep;
use grid::{DcSwitchingSimulator, SweepOrder};
use power_flow::solve_dc_power_flow;
use rules::{Refusal, check_sweep};

// Solves the flow once the rules 1 to 9 let the grid and the order pass, and refuses by 10 where it has not converged.
#[tactic(auto, unfolding(rules::specs::Studies::number_of))]
pub fn start_sweep(g: DcSwitchingSimulator, order: SweepOrder) -> Result<Sweep, Refusal>
    ensures refusal { number_of result ≡ sweep_refused g order }
    ensures answer { IfOk result (λ sweep. sweep ≡ started_sweep g order) }
{
    check_sweep(g, order)?;
    let flow = solve_dc_power_flow(g)?;
    if !flow.converged {
        return Err(Refusal::NotConverged);
    }
    Ok(Sweep {
        grid: g,
        order,
        flow,
        case_number: 0,
        steps_made: 0,
        open_case: first_open_case(g),
    })
}
