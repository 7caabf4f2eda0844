// Jobs 4, 5, 7 and 15: studies in portions. Jobs 9, 10 and 11: kept studies.
use crate::bench::Bench;
use crate::numbers::Ended;
use crate::studies::{MOST, Study};
use crate::{grids, times};
use fault_runs::FaultRun;
use rules::Refusal;

// Job 4: a grid, a fault and calls. Job 5: a grid, a breaker number, whether it opens, and calls. Job 7: a grid, an order and calls. The
// answer is a refusal; if it is 0, of each call its stop, steps and records or rows, and at the end the figures of the run or the kept
// sweep. A call is answered before the next one is read.
pub fn whole_study<S: Study>(b: &mut Bench) -> Result<(), Ended> {
    let grid = grids::read_grid(&mut b.reader)?;
    let study = S::read(&mut b.reader, grid)?;
    run_study(b, study)
}

// Job 15: a time step and a duration, then as job 4. The two fields of the grid are set to them once it is there, past `new`, which
// raises what lies in its range: so a run meets times below the least ones. The answer begins with the times that a study uses, then
// as job 4.
pub fn timed_fault_run(b: &mut Bench) -> Result<(), Ended> {
    let [dt_us, duration_ms] = b.reader.doubles::<2>()?;
    let mut grid = grids::read_grid(&mut b.reader)?;
    grid.dt_us = dt_us;
    grid.duration_ms = duration_ms;
    let run = FaultRun::read(&mut b.reader, grid)?;
    times::append_run_times(&mut b.writer, grid)?;
    run_study(b, run)
}

// The refusal, then the calls.
fn run_study<S: Study>(b: &mut Bench, study: S) -> Result<(), Ended> {
    match study.start() {
        Ok(started) => make_calls(b, started),
        Err(refusal) => refuse(b, refusal),
    }
}

// The answer is the refusal alone. What is refused is read whole before it is answered, also where the answer does not depend on its last
// numbers: how many calls, then an allowance and a space for each, which are passed over.
fn refuse(b: &mut Bench, refusal: Refusal) -> Result<(), Ended> {
    let calls = b.reader.next()?;
    // Twice, since twice the number need not be one.
    b.reader.skip(calls)?;
    b.reader.skip(calls)?;
    b.writer.append(refusal.number())
}

// No refusal; how many calls, the calls, and what they lead to.
fn make_calls<S: Study>(b: &mut Bench, started: S) -> Result<(), Ended> {
    b.writer.append(0u64)?;
    let calls = b.reader.next()?;
    let mut study = started;
    for _call in 0..calls {
        study = call(b, study)?;
    }
    study.append_end(&mut b.writer)
}

// One call: an allowance and a space.
fn call<S: Study>(b: &mut Bench, study: S) -> Result<S, Ended> {
    let [allowance, space] = b.reader.numbers::<2>()?;
    study.lend(&mut b.writer, allowance, MOST.min(space as usize))
}

// Job 9: a grid, a fault and the steps made. Job 10: a grid, a breaker number, whether it opens, and the steps made. Job 11: a grid, an
// order, a case number and the steps made in that case. A study is put together from them and advanced without allowance and memory. The
// answer is 11 or its stop.
pub fn kept_study<S: Study>(b: &mut Bench) -> Result<(), Ended> {
    let grid = grids::read_grid(&mut b.reader)?;
    let study = S::read(&mut b.reader, grid)?;
    let kept = study.read_kept(&mut b.reader)?;
    let mut memory: [S::Item; 0] = [];
    let p = kept.call(0, &mut memory);
    b.writer.append(portions::number(p.stop))
}
