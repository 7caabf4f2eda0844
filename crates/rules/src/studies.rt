// The rules 1 to 9 of document 01, in the order in which each study checks them.
ghost use Rattle.std.specs.Prelude.{◌≡◌, map};
ghost use Rattle.rules.specs.Studies.{rule_number, number_of, broken, first, flow_refusal, detection_refusal, switching_refusal, fault_refusal, sweep_refusal, point_refusal};

use grid::{ConverterStation, DcFaultEvent, DcSwitchingSimulator, SweepOrder};
use rule_tests::{
    breaker_outside, cable_outside, station_outside, time_outside, too_many_parts, too_many_steps,
};

// Why a study refuses its input.
#[derive(Clone, Copy, Debug, PartialEq, Eq)]
pub enum Refusal {
    NoStation,
    NoCable,
    TooManyParts,
    TimeOutside,
    TooManySteps,
    StationOutside,
    CableOutside,
    BreakerOutside,
    EventOutside,
    NotConverged,
}

impl Refusal {
    // 01's number, from 1 to 10.
    #[tactic(auto, unfolding(crate::specs::Studies::rule_number))]
    pub fn number(self) -> u64
        ensures { result ≡ rule_number self }
    {
        match self {
            Refusal::NoStation => 1,
            Refusal::NoCable => 2,
            Refusal::TooManyParts => 3,
            Refusal::TimeOutside => 4,
            Refusal::TooManySteps => 5,
            Refusal::StationOutside => 6,
            Refusal::CableOutside => 7,
            Refusal::BreakerOutside => 8,
            Refusal::EventOutside => 9,
            Refusal::NotConverged => 10,
        }
    }
}

// The rules that each study checks, first to last.
const FLOW: [Refusal; 5] = [
    Refusal::TooManyParts,
    Refusal::NoStation,
    Refusal::StationOutside,
    Refusal::CableOutside,
    Refusal::BreakerOutside,
];

const DETECTION: [Refusal; 5] = FLOW;

const SWITCHING: [Refusal; 7] = [
    Refusal::TooManyParts,
    Refusal::NoStation,
    Refusal::TimeOutside,
    Refusal::TooManySteps,
    Refusal::StationOutside,
    Refusal::CableOutside,
    Refusal::BreakerOutside,
];

const FAULT: [Refusal; 9] = [
    Refusal::TooManyParts,
    Refusal::NoStation,
    Refusal::NoCable,
    Refusal::TimeOutside,
    Refusal::TooManySteps,
    Refusal::StationOutside,
    Refusal::CableOutside,
    Refusal::BreakerOutside,
    Refusal::EventOutside,
];

// Ok where no rule refuses a flow of a grid, and otherwise the first that does.
#[tactic(auto, unfolding(crate::specs::Studies::rule_number, crate::specs::Studies::flow_refusal))]
pub fn check_flow(g: DcSwitchingSimulator) -> Result<(), Refusal>
    ensures { number_of result ≡ flow_refusal g }
{
    first_broken(&FLOW, g, false)
}

// Ok where no rule refuses detection on a grid, and otherwise the first that does.
#[tactic(auto, unfolding(crate::specs::Studies::rule_number, crate::specs::Studies::detection_refusal))]
pub fn check_detection(g: DcSwitchingSimulator) -> Result<(), Refusal>
    ensures { number_of result ≡ detection_refusal g }
{
    first_broken(&DETECTION, g, false)
}

// Ok where no rule refuses a switching run, and otherwise the first that does.
#[tactic(auto, unfolding(crate::specs::Studies::rule_number, crate::specs::Studies::switching_refusal))]
pub fn check_switching(g: DcSwitchingSimulator) -> Result<(), Refusal>
    ensures { number_of result ≡ switching_refusal g }
{
    first_broken(&SWITCHING, g, false)
}

// Ok where no rule refuses a fault run, and otherwise the first that does.
#[tactic(auto, unfolding(crate::specs::Studies::rule_number, crate::specs::Studies::fault_refusal))]
pub fn check_fault(g: DcSwitchingSimulator, fault: DcFaultEvent) -> Result<(), Refusal>
    ensures { number_of result ≡ fault_refusal g fault }
{
    let inside = part_checks::check_event(fault);
    first_broken(&FAULT, g, !inside)
}

// Ok where no rule up to 9 refuses a sweep, and otherwise the first that does. 10 is left to the sweep's start, which alone solves the flow.
#[tactic(auto, unfolding(crate::specs::Studies::rule_number, crate::specs::Studies::sweep_refusal))]
pub fn check_sweep(g: DcSwitchingSimulator, o: SweepOrder) -> Result<(), Refusal>
    ensures { number_of result ≡ sweep_refusal g o }
{
    let within = part_checks::check_order(o);
    first_broken(&FAULT, g, !within)
}

// Ok where rule 6 does not refuse a station.
#[tactic(auto, unfolding(crate::specs::Studies::number_of, crate::specs::Studies::rule_number, crate::specs::Studies::point_refusal))]
pub fn check_operating_point(station: ConverterStation) -> Result<(), Refusal>
    ensures { number_of result ≡ point_refusal station }
{
    if part_checks::check_station(station) {
        return Ok(());
    }
    Err(Refusal::StationOutside)
}

// The first rule of an order that is broken, as an error. Whether rule 9 is, is handed in.
fn first_broken(
    order: &[Refusal],
    g: DcSwitchingSimulator,
    event_outside: bool,
) -> Result<(), Refusal>
    ensures { number_of result ≡ first (broken g event_outside) (map rule_number order.now) }
{
    for rule in order {
        if breaks(g, event_outside, *rule) {
            return Err(*rule);
        }
    }
    Ok(())
}

// Rule 10 is never broken here: it is checked where the flow is solved.
#[tactic(auto, unfolding(crate::specs::Studies::rule_number, crate::specs::Studies::broken))]
fn breaks(g: DcSwitchingSimulator, event_outside: bool, rule: Refusal) -> bool
    ensures { result ≡ broken g event_outside (rule_number rule) }
{
    match rule {
        Refusal::NoStation => g.n_stations == 0,
        Refusal::NoCable => g.n_cables == 0,
        Refusal::TooManyParts => too_many_parts(g),
        Refusal::TimeOutside => time_outside(g),
        Refusal::TooManySteps => too_many_steps(g),
        Refusal::StationOutside => station_outside(g),
        Refusal::CableOutside => cable_outside(g),
        Refusal::BreakerOutside => breaker_outside(g),
        Refusal::EventOutside => event_outside,
        Refusal::NotConverged => false,
    }
}
