// The cases of a sweep, by number: cable ascending, then fault type, then tenth of the cable ascending.
ghost use Rattle.std.specs.Prelude.{◌≡◌, cond, nat_lt, Some, None};
ghost use Rattle.fault_cases.specs.Cases.{types, tenths_of, cases_of, place_of, fault_type, type_number, fault_in};

use grid::{CableCount, DcFaultEvent, DcFaultType, DcSwitchingSimulator, SweepOrder};
use std::num::nearest_u64_to_f64;

// Pole to ground, pole to pole, internal.
pub const FAULT_TYPES: u64 = 3;

pub const MOST_TENTHS: u64 = 10;

// Where and of which type the fault of a case is.
#[derive(Clone, Copy)]
pub struct CasePlace {
    // The cable's position.
    pub cable: u64,
    // 0 pole to ground, 1 pole to pole, 2 internal, and so every number past 2.
    pub fault_type: u64,
    // Tenths of the cable from its first end.
    pub tenth: u64,
}

// How many tenths an order tries; 1 where its tenths are refused by rule 9, so that every order has cases that can be numbered.
pub fn tenth_count(o: SweepOrder) -> u64
    ensures { result ≡ tenths_of o }
{
    if o.high_tenth < o.low_tenth || MOST_TENTHS < o.high_tenth {
        return 1;
    }
    o.high_tenth - o.low_tenth + 1
}

// How many cases a sweep has, at most 64 * 3 * 11.
pub fn case_count(g: DcSwitchingSimulator, o: SweepOrder) -> u64
    ensures { result ≡ cases_of g o }
{
    let cables = CableCount::of(g.n_cables).value as u64;
    cables * (FAULT_TYPES * tenth_count(o))
}

// The place of the case of a number, counted from 0.
pub fn case_place(o: SweepOrder, number: u64) -> CasePlace
    ensures { result ≡ place_of o number }
{
    let tenths = tenth_count(o);
    CasePlace {
        cable: number / (FAULT_TYPES * tenths),
        fault_type: number / tenths % FAULT_TYPES,
        tenth: o.low_tenth + number % tenths,
    }
}

// The fault at a place, with the resistance and the inception of the order.
#[tactic(auto, unfolding(crate::specs::Cases::fault_in))]
pub fn fault_at(o: SweepOrder, place: CasePlace) -> DcFaultEvent
    ensures { result ≡ fault_in o place }
{
    DcFaultEvent {
        fault_type: type_of(place.fault_type),
        location_cable_id: place.cable,
        location_fraction: nearest_u64_to_f64(place.tenth) / 10.0,
        fault_resistance: o.fault_resistance,
        inception_time_ms: o.inception_time_ms,
    }
}

// The number of a type in the order of the cases and in a row: 0 pole to ground, 1 pole to pole, 2 internal. A function and no From, since
// definitions call it by its name.
pub fn type_number(fault_type: DcFaultType) -> u64
    ensures { result ≡ type_number fault_type }
{
    match fault_type {
        DcFaultType::PoleToGround => 0,
        DcFaultType::PoleToPole => 1,
        DcFaultType::ConverterInternal => 2,
    }
}

// The type of a place's number: internal for every one past those of the other two.
pub fn type_of(number: u64) -> DcFaultType
    ensures { result ≡ fault_type number }
{
    fault_type(number).unwrap_or(DcFaultType::ConverterInternal)
}

// The type of a number; None where there is no such type.
pub fn fault_type(number: u64) -> Option<DcFaultType>
    ensures { result ≡ cond (nat_lt number types) (Some (fault_type number)) None }
{
    match number {
        0 => Some(DcFaultType::PoleToGround),
        1 => Some(DcFaultType::PoleToPole),
        2 => Some(DcFaultType::ConverterInternal),
        _ => None,
    }
}
