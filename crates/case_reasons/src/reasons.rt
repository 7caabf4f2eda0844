// Why a case is listed: the breakers do not clear it, cannot break its current, cannot absorb its energy, or nothing is detected.
ghost use Rattle.std.specs.Prelude.{◌≡◌, cond, ◌&&◌, ◌≤◌, length};
ghost use Rattle.lists.specs.Scans.{some};
ghost use Rattle.case_reasons.specs.Reasons.{exceeds, at_end, limit_of, exceeded_by, cable_in, reasons_of};

use grid::{DcBreaker, DcCable, DcSwitchingSimulator};

// What the reasons and the row are read from, once all steps of a case are made. Cleared or not and detected or not are reasons themselves, and the
// current of a case that is not cleared is 0 in its row: no Option holds it.
#[derive(Clone, Copy)]
pub struct CaseOutcome {
    pub cleared: bool,
    // Of the clearing step, in kA.
    pub clearing_current_ka: f64,
    pub energy_mj: f64,
    pub peak_fault_ka: f64,
    // In a step that reason 8 counts.
    pub detected: bool,
}

// Which of the two limits of a breaker is meant. No closure says it more plainly: the definitions name the limit too.
#[derive(Clone, Copy)]
pub enum Limit {
    BreakingCurrent,
    Energy,
}

// 01's reasons, added up; 0 where the breakers meet the case.
pub fn reasons_for(g: DcSwitchingSimulator, cable_number: u64, outcome: CaseOutcome) -> u64
    ensures { result ≡ reasons_of g cable_number outcome }
{
    reasons_in(&g, cable_number, outcome)
}

// `reasons_for` of a grid that is lent, for a caller that keeps one for many cases: no part of it is copied.
#[tactic(auto, using(crate::proofs::Written::exceeded_present), unfolding(crate::specs::Reasons::reasons_of))]
pub fn reasons_in(g: &DcSwitchingSimulator, cable_number: u64, outcome: CaseOutcome) -> u64
    ensures { result ≡ reasons_of g.now cable_number outcome }
{
    let cable = cable_at(g, cable_number);
    let breakers = g.present_breakers();
    let current = some_exceeded(
        breakers,
        cable,
        Limit::BreakingCurrent,
        outcome.clearing_current_ka,
    );
    let energy = some_exceeded(breakers, cable, Limit::Energy, outcome.energy_mj);
    weight(!outcome.cleared, 1)
        + weight(outcome.cleared & current, 2)
        + weight(energy, 4)
        + weight(!outcome.detected, 8)
}

// The number of a reason that applies, else 0. Reasons are added up, so that each is a number.
fn weight(applies: bool, reason: u64) -> u64
    ensures answer { result ≡ cond applies reason 0 }
    ensures most { result ≤ reason }
{
    if applies { reason } else { 0 }
}

// The cable at a position; past the last place one that is all zero.
fn cable_at(g: &DcSwitchingSimulator, number: u64) -> DcCable
    ensures { result ≡ cable_in g.now number }
{
    let none = DcCable {
        id: 0,
        from_station: 0,
        to_station: 0,
        r_per_km: 0.0,
        l_per_km: 0.0,
        c_per_km: 0.0,
        length_km: 0.0,
    };
    g.cables.get(number as usize).copied().unwrap_or(none)
}

// Whether the value exceeds that limit of some breaker at an end of the cable.
fn some_exceeded(breakers: &[DcBreaker], cable: DcCable, limit: Limit, value: f64) -> bool
    ensures { result ≡ some (length breakers.now) (exceeded_by breakers.now cable limit value) }
{
    for b in breakers {
        if is_exceeded(*b, cable, limit, value) {
            return true;
        }
    }
    false
}

// Whether a breaker is at an end of the cable, and the value exceeds its limit. The ends are taken as given.
fn is_exceeded(b: DcBreaker, cable: DcCable, limit: Limit, value: f64) -> bool
    ensures { result ≡ (at_end cable b && exceeds value (limit_of limit b)) }
{
    let at_end = (b.station_id == cable.from_station) | (b.station_id == cable.to_station);
    at_end & exceeds_limit(value, limit_of(b, limit))
}

// That limit of a breaker: a field for each, which no conversion says.
fn limit_of(b: DcBreaker, limit: Limit) -> f64
    ensures { result ≡ limit_of limit b }
{
    match limit {
        Limit::BreakingCurrent => b.max_breaking_current_ka,
        Limit::Energy => b.energy_absorption_mj,
    }
}

// Whether a value exceeds a limit. A NaN exceeds every limit.
fn exceeds_limit(value: f64, limit: f64) -> bool
    ensures { result ≡ exceeds value limit }
{
    !(value <= limit)
}
