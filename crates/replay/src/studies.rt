// Fault runs, switching runs and sweeps, as the jobs put them together, start them and advance them.
ghost use Rattle.std.specs.Prelude.{◌≤◌};

use crate::grids::read_fault;
use crate::numbers::{Answer, Ended};
use crate::reader::Reader;
use crate::sweeps::append_kept;
use crate::writer::Writer;
use case_reasons::ROW_LENGTH;
use fault_runs::FaultRun;
use fault_start::simulate_fault;
use fault_sweep::Sweep;
use grid::{DcSwitchingSimulator, SweepOrder};
use portions::Stop;
use rules::Refusal;
use runs::{Advanced, DcTransientResult, Run, advance};
use sweep_start::start_sweep;
use switching_plan::SwitchingVariables;
use switching_runs::SwitchingRun;
use switching_start::simulate_switching;

// The most numbers of lent memory.
pub const MOST: usize = 4096;

// A study after a call, how the call stopped, the steps that it made and the records or rows that it wrote.
#[derive(Clone, Copy)]
pub struct Portion<S> {
    pub study: S,
    pub stop: Stop,
    pub steps: u64,
    pub records: u64,
}

pub trait Study: Copy {
    // What a call writes into lent memory: a run doubles, a sweep numbers.
    type Item: Answer;

    // Put together from a grid and the numbers behind it, unchecked and without steps, its variables, flow and open case zeros.
    fn read(reader: &mut Reader, grid: DcSwitchingSimulator) -> Result<Self, Ended>;

    // The same study with steps made, as the numbers behind it say. Each writes a field of its own, for a trait has none.
    fn read_kept(self, reader: &mut Reader) -> Result<Self, Ended>;

    // Starts what it was put together from, unless that is refused.
    fn start(self) -> Result<Self, Refusal>;

    fn call(self, allowance: u64, memory: &mut [Self::Item]) -> Portion<Self>;

    // A call with memory of its own, and its answer.
    fn lend(self, w: &mut Writer, allowance: u64, space: usize) -> Result<Self, Ended>
        requires { space ≤ MOST };

    // The figures of a run, or a kept sweep.
    fn append_end(self, w: &mut Writer) -> Result<(), Ended>;
}

impl Study for FaultRun {
    type Item = f64;

    // A fault.
    fn read(reader: &mut Reader, grid: DcSwitchingSimulator) -> Result<FaultRun, Ended> {
        let blank = case_steps::no_open_case();
        Ok(FaultRun {
            grid,
            fault: read_fault(reader)?,
            steps_made: 0,
            variables: blank.variables,
        })
    }

    fn read_kept(self, reader: &mut Reader) -> Result<FaultRun, Ended> {
        let mut run = self;
        run.steps_made = reader.next()?;
        Ok(run)
    }

    fn start(self) -> Result<FaultRun, Refusal> {
        simulate_fault(self.grid, self.fault)
    }

    fn call(self, allowance: u64, memory: &mut [f64]) -> Portion<FaultRun> {
        portion_of(self.advance(allowance, memory))
    }

    fn lend(self, w: &mut Writer, allowance: u64, space: usize) -> Result<FaultRun, Ended> {
        lend_to_run(w, self, allowance, space)
    }

    fn append_end(self, w: &mut Writer) -> Result<(), Ended> {
        append_figures(w, self.figures(), self.steps_made)
    }
}

impl Study for SwitchingRun {
    type Item = f64;

    // A breaker number, whether it opens. Any breaker number is taken.
    fn read(reader: &mut Reader, grid: DcSwitchingSimulator) -> Result<SwitchingRun, Ended> {
        let [breaker_id, open] = reader.numbers::<2>()?;
        Ok(SwitchingRun {
            grid,
            breaker_id,
            open: open == 1,
            steps_made: 0,
            variables: SwitchingVariables {
                state: runs::blank_state(),
                switched: false,
            },
        })
    }

    fn read_kept(self, reader: &mut Reader) -> Result<SwitchingRun, Ended> {
        let mut run = self;
        run.steps_made = reader.next()?;
        Ok(run)
    }

    fn start(self) -> Result<SwitchingRun, Refusal> {
        simulate_switching(self.grid, self.breaker_id, self.open)
    }

    fn call(self, allowance: u64, memory: &mut [f64]) -> Portion<SwitchingRun> {
        portion_of(self.advance(allowance, memory))
    }

    fn lend(self, w: &mut Writer, allowance: u64, space: usize) -> Result<SwitchingRun, Ended> {
        lend_to_run(w, self, allowance, space)
    }

    fn append_end(self, w: &mut Writer) -> Result<(), Ended> {
        append_figures(w, self.figures(), self.steps_made)
    }
}

impl Study for Sweep {
    type Item = u64;

    // Resistance, inception, low and high tenth.
    fn read(reader: &mut Reader, grid: DcSwitchingSimulator) -> Result<Sweep, Ended> {
        let [fault_resistance, inception_time_ms] = reader.doubles::<2>()?;
        let [low_tenth, high_tenth] = reader.numbers::<2>()?;
        Ok(Sweep {
            grid,
            order: SweepOrder {
                fault_resistance,
                inception_time_ms,
                low_tenth,
                high_tenth,
            },
            flow: power_flow::no_solution(),
            case_number: 0,
            steps_made: 0,
            open_case: case_steps::no_open_case(),
        })
    }

    // A case number, and the steps made in that case.
    fn read_kept(self, reader: &mut Reader) -> Result<Sweep, Ended> {
        let mut sweep = self;
        sweep.case_number = reader.next()?;
        sweep.steps_made = reader.next()?;
        Ok(sweep)
    }

    fn start(self) -> Result<Sweep, Refusal> {
        start_sweep(self.grid, self.order)
    }

    fn call(self, allowance: u64, memory: &mut [u64]) -> Portion<Sweep> {
        let advanced = self.advance(allowance, memory);
        Portion {
            study: advanced.sweep,
            stop: advanced.stop,
            steps: advanced.steps,
            records: advanced.rows,
        }
    }

    fn lend(self, w: &mut Writer, allowance: u64, space: usize) -> Result<Sweep, Ended> {
        let mut memory = [0u64; MOST];
        let p = self.call(allowance, &mut memory[..space]);
        append_portion(w, p, ROW_LENGTH, &memory)
    }

    fn append_end(self, w: &mut Writer) -> Result<(), Ended> {
        append_kept(w, self)
    }
}

// A run after an advance.
fn portion_of<R>(advanced: Advanced<R>) -> Portion<R> {
    Portion {
        study: advanced.run,
        stop: advanced.stop,
        steps: advanced.steps,
        records: advanced.records,
    }
}

// A call of a run with memory of its own, and its answer.
fn lend_to_run<R: Run>(w: &mut Writer, run: R, allowance: u64, space: usize) -> Result<R, Ended>
    requires { space ≤ MOST }
{
    let mut memory = [0.0; MOST];
    let p = portion_of(advance(run, allowance, &mut memory[..space]));
    append_portion(w, p, timing::record_length(run.grid()), &memory)
}

// How a call stopped, its steps and how many records or rows it wrote, then these, as far as there is memory.
fn append_portion<S: Copy, A: Answer>(
    w: &mut Writer,
    p: Portion<S>,
    record_length: usize,
    memory: &[A],
) -> Result<S, Ended> {
    w.append_all(&[portions::number(p.stop), p.steps, p.records])?;
    let items = (p.records as usize).saturating_mul(record_length);
    w.append_all(&memory[..items.min(memory.len())])?;
    Ok(p.study)
}

// Peak, clearing time, energy, recovery time, largest di/dt, whether the fault is cleared, and the steps made in all.
fn append_figures(
    w: &mut Writer,
    figures: DcTransientResult,
    steps_made: u64,
) -> Result<(), Ended> {
    w.append_all(&[
        figures.peak_fault_current_ka,
        figures.fault_clearing_time_ms,
        figures.energy_dissipated_mj,
        figures.voltage_recovery_time_ms,
        figures.max_di_dt,
    ])?;
    w.append(figures.fault_cleared)?;
    w.append(steps_made)
}
