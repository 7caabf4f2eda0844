// Runs the studies on numbers, so that the Rust can be given the same ones and the answers compared line by line. Jobs are
// read from standard input until it ends; their answers go to standard output.
#![tactic(auto)]

mod bench;
mod calls;
mod circuits;
mod floats;
mod flows;
mod grids;
mod jobs;
mod numbers;
mod printed;
mod reader;
mod states;
mod steps;
mod studies;
mod sweeps;
mod times;
mod writer;

use bench::Bench;
use fault_runs::FaultRun;
use fault_sweep::Sweep;
use jobs::Job;
use numbers::Ended;
use reader::Reader;
use switching_runs::SwitchingRun;
use writer::Writer;

// A loop has to end, and no input has more jobs than this.
const JOBS: u64 = u64::MAX;

// The answers that are left at the end are written out: once nobody reads them, none can be.
fn main(rt: HostRuntime) {
    let mut b = Bench {
        reader: Reader::new(rt.stdin()),
        writer: Writer::new(rt.stdout()),
    };
    for _job in 0..JOBS {
        if answer_next(&mut b).is_err() {
            break;
        }
    }
    let _ = b.writer.write();
}

// Answers the next job, by its number.
fn answer_next(b: &mut Bench) -> Result<(), Ended> {
    let number = b.reader.next()?;
    answer(Job::try_from(number)?, b)
}

fn answer(job: Job, b: &mut Bench) -> Result<(), Ended> {
    match job {
        Job::Flow => flows::flow(b),
        Job::LccPoint => flows::lcc_point(b),
        Job::VscPoint => flows::vsc_point(b),
        Job::FaultRun => calls::whole_study::<FaultRun>(b),
        Job::SwitchingRun => calls::whole_study::<SwitchingRun>(b),
        Job::Detection => states::detection(b),
        Job::Sweep => calls::whole_study::<Sweep>(b),
        Job::Operation => floats::answer(b),
        Job::KeptFaultRun => calls::kept_study::<FaultRun>(b),
        Job::KeptSwitchingRun => calls::kept_study::<SwitchingRun>(b),
        Job::KeptSweep => calls::kept_study::<Sweep>(b),
        Job::Times => times::answer(b),
        Job::Step => steps::answer(b),
        Job::Circuit => circuits::answer(b),
        Job::TimedFaultRun => calls::timed_fault_run(b),
        Job::Printed => printed::answer(b),
    }
}
