// A grid, an event and an order by value, with the names of document 000.
#![tactic(auto)]

mod cables;
mod counts;
mod parts;
mod simulator;

pub use cables::{cable_resistance, cut_end};
pub use counts::{BreakerCount, CableCount, Count, StationCount};
pub use parts::{
    ConverterStation, ConverterTopology, DcBreaker, DcBreakerType, DcCable, DcFaultEvent,
    DcFaultType, SweepOrder, counted_submodules,
};
pub use simulator::{
    DcSwitchingSimulator, LEAST_DURATION_MS, LEAST_TIME_STEP_US, MOST_BREAKERS, MOST_CABLES,
    MOST_STATIONS,
};
