// Job 14: the circuit that a fault closes. The Rust has it inside a fault run; here it can be asked for.
use crate::bench::Bench;
use crate::grids;
use crate::numbers::Ended;
use crate::writer::Writer;
use fault_circuit::RlcParameters;

// A grid, a fault, a time, a current and a clearing time. The answer is a fault run's refusal, and if it is 0 the circuit's
// parameters, the fault's current at the time, and what is then left of the other current.
pub fn answer(b: &mut Bench) -> Result<(), Ended> {
    let grid = grids::read_grid(&mut b.reader)?;
    let fault = grids::read_fault(&mut b.reader)?;
    let [time_ms, current_ka, clearing_ms] = b.reader.doubles::<3>()?;
    if let Err(refusal) = rules::check_fault(grid, fault) {
        return b.writer.append(refusal.number());
    }
    b.writer.append(0u64)?;
    append_parameters(&mut b.writer, fault_circuit::fault_rlc_params(grid, fault))?;
    let circuit = fault_circuit::fault_circuit(grid, fault);
    b.writer.append_all(&[
        fault_current::fault_current_ka(circuit, time_ms),
        fault_current::decayed_current_ka(circuit, current_ka, clearing_ms, time_ms),
    ])
}

fn append_parameters(w: &mut Writer, p: RlcParameters) -> Result<(), Ended> {
    w.append_all(&[
        p.l_total_mh,
        p.c_total_uf,
        p.r_total_ohm,
        p.r_fault_ohm,
        p.v_dc_kv,
    ])
}
