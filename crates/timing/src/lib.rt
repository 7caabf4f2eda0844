// The time of a run: how many steps it has and which of them are recorded.
#![tactic(auto)]

mod steps;

pub use steps::{
    MOST_STEPS, duration_ms, is_recorded, record_interval, record_length, recorded_steps,
    time_step_ms, total_steps,
};
