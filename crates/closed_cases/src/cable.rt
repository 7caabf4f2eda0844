// A call that closes all cases of a cable works each place on it out once for the three types of fault.
ghost use Rattle.std.specs.Prelude.{◌≡◌};
ghost use Rattle.closed_cases.specs.Cables.{blank_site, tried, site_at, no_cable, cable_of, whole_cable, held_for};

use case_ends::{SiteEnds, site_ends};
use case_reasons::CaseOutcome;
use fault_cases::{CasePlace, FAULT_TYPES, MOST_TENTHS, case_place, tenth_count};
use grid::SweepOrder;
use sweep_cases::{Common, plan_at};

// Tenths 0 to 10.
const PLACES: usize = 11;

// The outcomes of a cable's cases, held within a call.
#[derive(Clone, Copy)]
pub struct CableEnds {
    // The cable's position.
    pub cable: u64,
    // By the tenth; all zero and false at a tenth that the order does not try.
    pub sites: [SiteEnds; PLACES],
}

// What a call holds before it closes case k: the cable of that case, if it closes all cases of it, and else what it held before.
pub fn ends_held(
    common: Common,
    before: Option<CableEnds>,
    k: u64,
    allowed: u64,
    room: usize,
) -> Option<CableEnds>
    ensures { result ≡ held_for common before k allowed room }
{
    let order = common.order;
    let place = case_place(order, k);
    if closes_cable(order, place, common.n_steps, allowed, room) {
        return Some(cable_ends(common, place.cable));
    }
    before
}

// Whether a call stands before the first case of a cable, and has steps and rows left for all of them.
fn closes_cable(
    order: SweepOrder,
    place: CasePlace,
    n_steps: u64,
    allowed: u64,
    room: usize,
) -> bool
    ensures { result ≡ whole_cable order place n_steps allowed room }
{
    let cases = FAULT_TYPES * tenth_count(order);
    let is_first = (place.fault_type == 0) & (place.tenth == order.low_tenth);
    is_first & (n_steps <= allowed / cases) & (cases <= room as u64)
}

// What a call holds at first: no cable. A function, whose contract has the definition's name for it.
pub fn no_cable_ends() -> Option<CableEnds>
    ensures { result ≡ no_cable }
{
    None
}

// The outcomes of all cases of a cable, from their first step to their end.
#[tactic(auto, using(lists::proofs::Fills::upto_none, lists::proofs::Fills::upto_more), unfolding(lists::specs::Tables::blank))]
fn cable_ends(common: Common, cable: u64) -> CableEnds
    ensures { result ≡ cable_of common cable }
{
    let mut sites = [blank_site(); PLACES];
    for tenth in 0..PLACES {
        sites[tenth] = site_at(common, cable, tenth as u64);
    }
    CableEnds { cable, sites }
}

// The outcomes at a tenth; all zero and false where the order does not try it.
#[tactic(auto, unfolding(crate::specs::Cables::site_at))]
fn site_at(common: Common, cable: u64, tenth: u64) -> SiteEnds
    ensures { result ≡ site_at common cable tenth }
{
    let order = common.order;
    if is_tried(order, tenth) {
        let g = common.grid;
        let window = common.window;
        let place = CasePlace {
            cable,
            fault_type: 0,
            tenth,
        };
        return site_ends(g, plan_at(common, place), window);
    }
    blank_site()
}

// Whether an order tries a tenth.
pub fn is_tried(order: SweepOrder, tenth: u64) -> bool
    ensures { result ≡ tried order tenth }
{
    (order.low_tenth <= tenth) & (tenth <= order.high_tenth) & (tenth <= MOST_TENTHS)
}

// Outcomes that are all zero and false.
fn blank_site() -> SiteEnds
    ensures { result ≡ blank_site }
{
    let none = CaseOutcome {
        cleared: false,
        clearing_current_ka: 0.0,
        energy_mj: 0.0,
        peak_fault_ka: 0.0,
        detected: false,
    };
    SiteEnds {
        to_ground: none,
        pole: none,
        internal: none,
    }
}
