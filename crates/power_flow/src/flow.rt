// The flow of a grid.
ghost use Rattle.std.specs.Prelude.{◌≡◌, IfOk};
ghost use Rattle.rules.specs.Studies.{number_of, flow_refusal};
ghost use Rattle.flow_voltages.specs.Balance.{currents_of};
ghost use Rattle.power_flow.specs.Flow.{solution_at, blank_solution, flow_answer};

use crate::solution;
use converter::{ConverterOperatingPoint, no_point};
use flow_voltages::{Found, find_with_currents};
use grid::{DcSwitchingSimulator, MOST_CABLES, MOST_STATIONS};
use rules::{Refusal, check_flow};

// 000's solution, which stands where it has not converged too. What stands past the counts is zeros.
#[derive(Clone, Copy)]
pub struct DcGridSolution {
    pub operating_points: [ConverterOperatingPoint; MOST_STATIONS],
    pub cable_losses_mw: [f64; MOST_CABLES],
    pub total_losses_mw: f64,
    pub converged: bool,
    pub iterations: u64,
}

// DcSwitchingSimulator::solve_dc_power_flow
#[tactic(auto, unfolding(rules::specs::Studies::number_of, crate::specs::Flow::flow_answer))]
pub fn solve_dc_power_flow(g: DcSwitchingSimulator) -> Result<DcGridSolution, Refusal>
    ensures refusal { number_of result ≡ flow_refusal g }
    ensures solution { IfOk result (λ solution. solution ≡ flow_answer g) }
{
    check_flow(g)?;
    let found = find_with_currents(&g);
    Ok(solution_at(&g, &found))
}

// Operating points and losses of any grid at voltages: the cables' losses, then the stations'.
fn solution_at(g: &DcSwitchingSimulator, found: &Found) -> DcGridSolution
    requires { found.now.i_dc_ka ≡ currents_of g.now found.now.voltages.v_dc_kv }
    ensures { result ≡ solution_at g.now found.now.voltages }
{
    let mut cable_losses_mw = [0.0; MOST_CABLES];
    let total = solution::cable_losses(&mut cable_losses_mw, g, &found.voltages.v_dc_kv);
    let made = solution::operating_points(g, found, total);
    let operating_points = made.points;
    DcGridSolution {
        operating_points,
        cable_losses_mw,
        total_losses_mw: made.total_losses_mw,
        converged: found.voltages.converged,
        iterations: found.voltages.iterations,
    }
}

// All zeros: the solution before any is found.
pub fn no_solution() -> DcGridSolution
    ensures { result ≡ blank_solution }
{
    DcGridSolution {
        operating_points: [no_point(); MOST_STATIONS],
        cable_losses_mw: [0.0; MOST_CABLES],
        total_losses_mw: 0.0,
        converged: false,
        iterations: 0,
    }
}
