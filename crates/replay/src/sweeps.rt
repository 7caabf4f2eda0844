// A kept sweep as an answer.
use crate::numbers::Ended;
use crate::states;
use crate::writer::Writer;
use case_steps::OpenCase;
use fault_plan::FaultVariables;
use fault_sweep::Sweep;
use grid::MOST_BREAKERS;

// Case number and steps in the open case, then that case, its variables and the state, and of each breaker whether it is closed.
pub fn append_kept(w: &mut Writer, sweep: Sweep) -> Result<(), Ended> {
    let grid = sweep.grid;
    let open_case = sweep.open_case;
    let state = open_case.variables.state;
    w.append_all(&[sweep.case_number, sweep.steps_made])?;
    append_case(w, open_case)?;
    append_variables(w, open_case.variables)?;
    w.append_all(&[state.time_ms, state.fault_current_ka])?;
    states::append_state(w, grid, state)?;
    w.append_all(&state.breaker_states[..MOST_BREAKERS.min(grid.n_breakers)])
}

// Whether a step that reason 8 counts has been detected, and the clearing step's current.
fn append_case(w: &mut Writer, open_case: OpenCase) -> Result<(), Ended> {
    w.append(open_case.detected)?;
    w.append(open_case.clearing_current_ka)
}

// All but the state.
fn append_variables(w: &mut Writer, v: FaultVariables) -> Result<(), Ended> {
    w.append_all(&[v.peak_fault_ka, v.max_di_dt, v.energy_mj])?;
    w.append(v.fault_cleared)?;
    w.append_all(&[
        v.clearing_time_ms,
        v.voltage_recovery_time_ms,
        v.prev_fault_current_ka,
    ])?;
    w.append(v.fault_active)
}
