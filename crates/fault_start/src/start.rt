// The start of a run: 000's simulate_fault.
ghost use Rattle.std.specs.Prelude.{◌≡◌, IfOk};
ghost use Rattle.rules.specs.Studies.{number_of, fault_refusal};
ghost use Rattle.fault_runs.specs.FaultRuns.{started_fault_run};

use fault_plan::first_fault_variables;
use fault_runs::FaultRun;
use grid::{DcFaultEvent, DcSwitchingSimulator};
use rules::{Refusal, check_fault};

// DcSwitchingSimulator::simulate_fault, up to its loop.
#[tactic(auto, unfolding(rules::specs::Studies::number_of, fault_runs::specs::FaultRuns::started_fault_run, fault_plan::specs::Fault::fault_after))]
pub fn simulate_fault(g: DcSwitchingSimulator, fault: DcFaultEvent) -> Result<FaultRun, Refusal>
    ensures refusal { number_of result ≡ fault_refusal g fault }
    ensures run { IfOk result (λ run. run ≡ started_fault_run g fault) }
{
    check_fault(g, fault)?;
    Ok(FaultRun {
        grid: g,
        fault,
        steps_made: 0,
        variables: first_fault_variables(g),
    })
}
