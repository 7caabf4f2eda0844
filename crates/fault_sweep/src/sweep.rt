// A kept sweep, and what an advance of it returns.
use case_steps::OpenCase;
use grid::{DcSwitchingSimulator, SweepOrder};
use portions::Stop;
use power_flow::DcGridSolution;

// What is kept between advances: nothing of a case that is closed, and no row.
#[derive(Clone, Copy)]
pub struct Sweep {
    pub grid: DcSwitchingSimulator,
    pub order: SweepOrder,
    // The flow's results.
    pub flow: DcGridSolution,
    // Of the open case, from 0; the number of cases where none is left.
    pub case_number: u64,
    // In the open case.
    pub steps_made: u64,
    pub open_case: OpenCase,
}

#[derive(Clone, Copy)]
pub struct AdvancedSweep {
    pub stop: Stop,
    // Made by this call.
    pub steps: u64,
    // Written by this call, of eight numbers each.
    pub rows: u64,
    pub sweep: Sweep,
}
