// The steps in which a fault lasts: from the first in which it is active to the one in which the breakers clear it.
ghost use Rattle.std.specs.Prelude.{◌≡◌};
ghost use Rattle.fault_window.specs.Window.{active_in, clears_in, window_of};

use run_start::step_time_ms;

// Steps are numbered from 0. The window is there whether its last step clears the fault or not.
#[derive(Clone, Copy)]
pub struct Window {
    // The first step in which the fault lasts.
    pub from: u64,
    // The step after the last one: it is not in the window.
    pub to: u64,
    // Whether the last one clears the fault. Where it does not, the fault lasts up to the end.
    pub clears: bool,
}

// When a fault comes and how long its clearing takes, in steps of `dt_ms`; all in milliseconds.
#[derive(Clone, Copy)]
pub struct FaultTimes {
    pub dt_ms: f64,
    pub inception_ms: f64,
    pub clear_ms: f64,
}

// The window in the steps from `first` up to `end`, which is not made. The fault is active from its inception on, or in all of them where it is active already.
// Where it is active in none, or `first` is not below `end`, no step lies in the window.
pub fn fault_window(times: FaultTimes, active: bool, first: u64, end: u64) -> Window
    ensures { result ≡ window_of times.dt_ms times.inception_ms times.clear_ms active first end }
{
    let begins = (first..end).find(|step| is_active(times, active, *step));
    let from = begins.unwrap_or(end.max(first));
    match (from..end).find(|step| is_cleared(times, *step)) {
        Some(last) => Window {
            from,
            to: last + 1,
            clears: true,
        },
        None => Window {
            from,
            to: end,
            clears: false,
        },
    }
}

// Whether the fault is active in a step: from its inception on, or already.
fn is_active(times: FaultTimes, active: bool, step: u64) -> bool
    ensures { result ≡ active_in times.dt_ms times.inception_ms active step }
{
    active | (times.inception_ms <= step_time_ms(times.dt_ms, step))
}

// Whether the time from inception to a step has reached that of the breakers.
fn is_cleared(times: FaultTimes, step: u64) -> bool
    ensures { result ≡ clears_in times.dt_ms times.inception_ms times.clear_ms step }
{
    times.clear_ms <= step_time_ms(times.dt_ms, step) - times.inception_ms
}
