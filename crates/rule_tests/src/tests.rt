// When the rules 3 to 8 of document 01 are broken.
ghost use Rattle.std.specs.Prelude.{◌≡◌};
ghost use Rattle.rule_tests.specs.Rules.{too_many_parts, time_outside, too_many_steps, station_outside, cable_outside, breaker_outside};

use grid::{
    BreakerCount, CableCount, DcSwitchingSimulator, MOST_BREAKERS, MOST_CABLES, MOST_STATIONS,
    StationCount,
};
use ranges::in_range;
use timing::{MOST_STEPS, total_steps};

// Rule 3 applies.
pub fn too_many_parts(g: DcSwitchingSimulator) -> bool
    ensures { result ≡ too_many_parts g }
{
    (MOST_STATIONS < g.n_stations) | (MOST_CABLES < g.n_cables) | (MOST_BREAKERS < g.n_breakers)
}

// Rule 4 applies.
pub fn time_outside(g: DcSwitchingSimulator) -> bool
    ensures { result ≡ time_outside g }
{
    let step = in_range(ranges::DT_US, g.dt_us);
    let duration = in_range(ranges::DURATION_MS, g.duration_ms);
    !(step & duration)
}

// Rule 5 applies.
pub fn too_many_steps(g: DcSwitchingSimulator) -> bool
    ensures { result ≡ too_many_steps g }
{
    MOST_STEPS < total_steps(g)
}

// Rule 6 applies.
pub fn station_outside(g: DcSwitchingSimulator) -> bool
    ensures { result ≡ station_outside g }
{
    part_positions::first_bad_station(g) < StationCount::of(g.n_stations).value
}

// Rule 7 applies.
pub fn cable_outside(g: DcSwitchingSimulator) -> bool
    ensures { result ≡ cable_outside g }
{
    part_positions::first_bad_cable(g) < CableCount::of(g.n_cables).value
}

// Rule 8 applies.
pub fn breaker_outside(g: DcSwitchingSimulator) -> bool
    ensures { result ≡ breaker_outside g }
{
    part_positions::first_bad_breaker(g) < BreakerCount::of(g.n_breakers).value
}
