// The start of a run: 000's simulate_switching. It checks its own rules and makes its own struct, as simulate_fault does: one start for both would be a trait of these two.
ghost use Rattle.std.specs.Prelude.{◌≡◌, IfOk};
ghost use Rattle.rules.specs.Studies.{number_of, switching_refusal};
ghost use Rattle.switching_runs.specs.SwitchingRuns.{started_switching_run};

use grid::DcSwitchingSimulator;
use rules::{Refusal, check_switching};
use switching_plan::first_switching_variables;
use switching_runs::SwitchingRun;

// DcSwitchingSimulator::simulate_switching, up to its loop.
#[tactic(auto, unfolding(rules::specs::Studies::number_of, switching_runs::specs::SwitchingRuns::started_switching_run, switching_plan::specs::Switching::switching_after))]
pub fn simulate_switching(
    g: DcSwitchingSimulator,
    breaker_id: u64,
    open: bool,
) -> Result<SwitchingRun, Refusal>
    ensures refusal { number_of result ≡ switching_refusal g }
    ensures run { IfOk result (λ run. run ≡ started_switching_run g breaker_id «open») }
{
    check_switching(g)?;
    Ok(SwitchingRun {
        grid: g,
        breaker_id,
        open,
        steps_made: 0,
        variables: first_switching_variables(g, open),
    })
}
