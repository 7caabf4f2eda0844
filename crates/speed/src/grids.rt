// Grids that every rule accepts, and a fault on their first cable.
use grid::{
    ConverterStation, ConverterTopology, DcBreaker, DcBreakerType, DcCable, DcFaultEvent,
    DcFaultType, DcSwitchingSimulator,
};
use std::num::nearest_u64_to_f64;

// No grid has room for more parts of a kind.
const MOST: u64 = 64;

// What a grid is to have: power of each station, resistance of each cable, and after how many ms the first breaker opens.
#[derive(Clone, Copy)]
pub struct Order {
    pub dt_us: f64,
    pub duration_ms: f64,
    pub stations: u64,
    pub cables: u64,
    pub breakers: u64,
    pub power_mw: f64,
    pub ohms_per_km: f64,
    pub breaker_ms: f64,
}

pub fn grid_of(o: Order) -> DcSwitchingSimulator {
    let bare = DcSwitchingSimulator::new(o.dt_us, o.duration_ms);
    let stations = with_parts(bare, o.stations, |grid, i| {
        let station = station(i, topology(i), o.power_mw);
        grid.add_station(station).unwrap_or(grid)
    });
    let cables = with_parts(stations, o.cables, |grid, i| {
        let cable = cable(i, o.stations, o.ohms_per_km);
        grid.add_cable(cable).unwrap_or(grid)
    });
    with_parts(cables, o.breakers, |grid, i| {
        let breaker = breaker(i, o.breaker_ms + nearest_u64_to_f64(i));
        grid.add_breaker(breaker).unwrap_or(grid)
    })
}

// The grid with so many parts of a kind, no more than it has room for.
fn with_parts<F: Fn(DcSwitchingSimulator, u64) -> DcSwitchingSimulator>(
    bare: DcSwitchingSimulator,
    count: u64,
    with_part: F,
) -> DcSwitchingSimulator
    requires { F.IsAlwaysCallable with_part }
{
    let mut grid = bare;
    for i in 0..count.min(MOST) {
        grid = with_part(grid, i);
    }
    grid
}

// The four in turn.
fn topology(id: u64) -> ConverterTopology {
    match id % 4 {
        0 => ConverterTopology::Lcc,
        1 => ConverterTopology::TwoLevelVsc,
        2 => ConverterTopology::Mmc { n_submodules: 200 },
        _ => ConverterTopology::Hybrid,
    }
}

pub fn station(id: u64, topology: ConverterTopology, p_rated_mw: f64) -> ConverterStation {
    ConverterStation {
        id,
        topology,
        v_dc_rated_kv: 320.0,
        p_rated_mw,
        x_transformer_pu: 0.15,
        scr: 3.0,
        control_angle_deg: 15.0,
        x_commutation_pu: 0.1,
        arm_inductance_mh: 50.0,
        sm_capacitance_uf: 10000.0,
    }
}

// A ring, then a chord over five stations from each in turn.
fn cable(id: u64, stations: u64, r_per_km: f64) -> DcCable {
    let over = if id < stations { 1 } else { 5 };
    DcCable {
        id,
        from_station: around(id, stations),
        to_station: around(id.wrapping_add(over), stations),
        r_per_km,
        l_per_km: 0.5,
        c_per_km: 0.2,
        length_km: 200.0,
    }
}

fn around(k: u64, stations: u64) -> u64 {
    if stations == 0 { 0 } else { k % stations }
}

// The three kinds in turn: the first is mechanical.
pub fn breaker(id: u64, ms: f64) -> DcBreaker {
    let breaker_type = match id % 3 {
        0 => DcBreakerType::Mechanical {
            opening_time_ms: ms,
        },
        1 => DcBreakerType::SolidState {
            turn_off_time_us: ms * 1000.0,
            on_state_loss_pct: 0.1,
        },
        _ => DcBreakerType::HybridBreaker {
            opening_time_ms: ms,
            commutation_time_us: ms * 900.0,
        },
    };
    DcBreaker {
        id,
        station_id: 0,
        breaker_type,
        max_breaking_current_ka: 16.0,
        energy_absorption_mj: 10.0,
    }
}

pub fn fault_at(inception_time_ms: f64) -> DcFaultEvent {
    DcFaultEvent {
        fault_type: DcFaultType::PoleToGround,
        location_cable_id: 0,
        location_fraction: 0.5,
        fault_resistance: 10.0,
        inception_time_ms,
    }
}
