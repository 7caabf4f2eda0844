// Why an advance of a run or a sweep stops. The stopping rule, the tally and the claim about whole lists of calls are in specs/.
#![tactic(auto)]

ghost use Rattle.std.specs.Prelude.{◌≡◌};
ghost use Rattle.portions.specs.Stopping.{number_of, reason_of};

// Why an advance stops. A refusal is one of four reasons with a number each, and the run or sweep is handed back with all of them: a Result would say
// the same in two places.
#[derive(Clone, Copy)]
pub enum Stop {
    Finished,
    Spent,
    Full,
    Refused,
}

// The number of a stop: 0 finished, 1 spent, 2 full, and 01's 11 for a refusal.
pub fn number(stop: Stop) -> u64
    ensures { result ≡ number_of stop }
{
    match stop {
        Stop::Finished => 0,
        Stop::Spent => 1,
        Stop::Full => 2,
        Stop::Refused => 11,
    }
}

// Why an advance stops: finished if no step is left, else spent if the allowance is made, else full.
pub fn reason(ended: bool, spent: bool) -> Stop
    ensures { result ≡ reason_of ended spent }
{
    if ended {
        return Stop::Finished;
    }
    if spent {
        return Stop::Spent;
    }
    Stop::Full
}
