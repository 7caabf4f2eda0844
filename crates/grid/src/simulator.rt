// A grid with its time step and duration, by value.
ghost use Rattle.std.specs.Prelude.{◌≡◌, cond};
ghost use Rattle.float64.specs.Choice.{max_of};
ghost use Rattle.ranges.specs.Ranges.{between};
ghost use Rattle.grid.specs.Simulator.{new_simulator, with_station, with_cable, with_breaker, stations_of, cables_of, breakers_of};

use crate::counts::{BreakerCount, CableCount, StationCount};
use crate::parts::{ConverterStation, ConverterTopology, DcBreaker, DcBreakerType, DcCable};
use ranges::{Range, in_range};

// The most stations, cables and breakers that a grid has room for.
pub const MOST_STATIONS: usize = 32;

pub const MOST_CABLES: usize = 64;

pub const MOST_BREAKERS: usize = 32;

// What a time step and a duration are raised to.
pub const LEAST_TIME_STEP_US: f64 = 0.1;

pub const LEAST_DURATION_MS: f64 = 0.001;

// 000's simulator. What stands in an array at or past its count is never read.
#[derive(Clone, Copy)]
pub struct DcSwitchingSimulator {
    // a station's number is its position here, and so for cables and breakers
    pub stations: [ConverterStation; MOST_STATIONS],
    pub cables: [DcCable; MOST_CABLES],
    pub breakers: [DcBreaker; MOST_BREAKERS],
    // how many there are; rule 3 refuses a count past its array
    pub n_stations: usize,
    pub n_cables: usize,
    pub n_breakers: usize,
    // time step of a run, µs
    pub dt_us: f64,
    // length of a run, ms
    pub duration_ms: f64,
}

impl DcSwitchingSimulator {
    // DcSwitchingSimulator::new
    pub fn new(dt_us: f64, duration_ms: f64) -> Self
        ensures { result ≡ new_simulator dt_us duration_ms }
    {
        let station = ConverterStation {
            id: 0,
            topology: ConverterTopology::Lcc,
            v_dc_rated_kv: 0.0,
            p_rated_mw: 0.0,
            x_transformer_pu: 0.0,
            scr: 0.0,
            control_angle_deg: 0.0,
            x_commutation_pu: 0.0,
            arm_inductance_mh: 0.0,
            sm_capacitance_uf: 0.0,
        };
        let cable = DcCable {
            id: 0,
            from_station: 0,
            to_station: 0,
            r_per_km: 0.0,
            l_per_km: 0.0,
            c_per_km: 0.0,
            length_km: 0.0,
        };
        let breaker = DcBreaker {
            id: 0,
            station_id: 0,
            breaker_type: DcBreakerType::Mechanical {
                opening_time_ms: 0.0,
            },
            max_breaking_current_ka: 0.0,
            energy_absorption_mj: 0.0,
        };
        DcSwitchingSimulator {
            stations: [station; MOST_STATIONS],
            cables: [cable; MOST_CABLES],
            breakers: [breaker; MOST_BREAKERS],
            n_stations: 0,
            n_cables: 0,
            n_breakers: 0,
            dt_us: kept(dt_us, LEAST_TIME_STEP_US, ranges::DT_US),
            duration_ms: kept(duration_ms, LEAST_DURATION_MS, ranges::DURATION_MS),
        }
    }

    // DcSwitchingSimulator::add_station. The three that add a part differ in the array and the count that they name: one body for all would be a trait with three.
    pub fn add_station(self, station: ConverterStation) -> Option<Self>
        ensures { result ≡ with_station self station }
    {
        let mut grid = self;
        let stations = grid.n_stations;
        if MOST_STATIONS <= stations {
            return None;
        }
        grid.stations[stations] = station;
        grid.n_stations = stations + 1;
        Some(grid)
    }

    // DcSwitchingSimulator::add_cable
    pub fn add_cable(self, cable: DcCable) -> Option<Self>
        ensures { result ≡ with_cable self cable }
    {
        let mut grid = self;
        let cables = grid.n_cables;
        if MOST_CABLES <= cables {
            return None;
        }
        grid.cables[cables] = cable;
        grid.n_cables = cables + 1;
        Some(grid)
    }

    // DcSwitchingSimulator::add_breaker
    pub fn add_breaker(self, breaker: DcBreaker) -> Option<Self>
        ensures { result ≡ with_breaker self breaker }
    {
        let mut grid = self;
        let breakers = grid.n_breakers;
        if MOST_BREAKERS <= breakers {
            return None;
        }
        grid.breakers[breakers] = breaker;
        grid.n_breakers = breakers + 1;
        Some(grid)
    }

    // The stations that there are.
    pub fn present_stations(&self) -> &[ConverterStation]
        ensures { result.now ≡ stations_of self.now }
    {
        let n = StationCount::of(self.n_stations);
        &self.stations[..n.value]
    }

    // The cables that there are.
    pub fn present_cables(&self) -> &[DcCable]
        ensures { result.now ≡ cables_of self.now }
    {
        let n = CableCount::of(self.n_cables);
        &self.cables[..n.value]
    }

    // The breakers that there are.
    pub fn present_breakers(&self) -> &[DcBreaker]
        ensures { result.now ≡ breakers_of self.now }
    {
        let n = BreakerCount::of(self.n_breakers);
        &self.breakers[..n.value]
    }
}

// What `new` keeps of a time step and a duration: one in its range is raised, and another is left for rule 4 to refuse.
fn kept(x: f64, least: f64, range: Range) -> f64
    ensures { result ≡ cond (between range x) (max_of x least) x }
{
    if in_range(range, x) {
        float64::max(x, least)
    } else {
        x
    }
}
