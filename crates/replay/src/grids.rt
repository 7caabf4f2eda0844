// Stations, cables, breakers and grids as the jobs give them. The reading ends at a topology, a kind of breaker or a type of fault that there
// is not.
use crate::numbers::Ended;
use crate::reader::Reader;
use fault_cases::fault_type;
use float64::from_bits;
use grid::{
    ConverterStation, ConverterTopology, DcBreaker, DcBreakerType, DcCable, DcFaultEvent,
    DcSwitchingSimulator, MOST_BREAKERS, MOST_CABLES, MOST_STATIONS,
};

// Time step, duration and the three counts, then the parts: as many as the counts say, but no more than their arrays have room for. The
// counts stay as they are read, also past the arrays.
pub fn read_grid(reader: &mut Reader) -> Result<DcSwitchingSimulator, Ended> {
    let [dt_us, duration_ms] = reader.doubles::<2>()?;
    let [stations, cables, breakers] = reader.numbers::<3>()?;
    let bare = DcSwitchingSimulator::new(dt_us, duration_ms);
    let grid = read_parts(
        reader,
        bare,
        MOST_STATIONS.min(stations as usize),
        with_station,
    )?;
    let grid = read_parts(reader, grid, MOST_CABLES.min(cables as usize), with_cable)?;
    let mut grid = read_parts(
        reader,
        grid,
        MOST_BREAKERS.min(breakers as usize),
        with_breaker,
    )?;
    grid.n_stations = stations as usize;
    grid.n_cables = cables as usize;
    grid.n_breakers = breakers as usize;
    Ok(grid)
}

// The grid with n parts of a kind more.
fn read_parts<F>(
    reader: &mut Reader,
    bare: DcSwitchingSimulator,
    n: usize,
    with_part: F,
) -> Result<DcSwitchingSimulator, Ended>
where
    F: Fn(&mut Reader, DcSwitchingSimulator) -> Result<DcSwitchingSimulator, Ended>,
    requires { F.IsAlwaysCallable with_part }
{
    let mut grid = bare;
    for _part in 0..n {
        grid = with_part(reader, grid)?;
    }
    Ok(grid)
}

fn with_station(
    reader: &mut Reader,
    grid: DcSwitchingSimulator,
) -> Result<DcSwitchingSimulator, Ended> {
    let station = read_station(reader)?;
    Ok(grid.add_station(station).unwrap_or(grid))
}

fn with_cable(
    reader: &mut Reader,
    grid: DcSwitchingSimulator,
) -> Result<DcSwitchingSimulator, Ended> {
    let cable = read_cable(reader)?;
    Ok(grid.add_cable(cable).unwrap_or(grid))
}

fn with_breaker(
    reader: &mut Reader,
    grid: DcSwitchingSimulator,
) -> Result<DcSwitchingSimulator, Ended> {
    let breaker = read_breaker(reader)?;
    Ok(grid.add_breaker(breaker).unwrap_or(grid))
}

// Topology, submodules, id, then the doubles.
pub fn read_station(reader: &mut Reader) -> Result<ConverterStation, Ended> {
    let n = reader.numbers::<11>()?;
    Ok(ConverterStation {
        id: n[2],
        topology: topology_of(n[0], n[1])?,
        v_dc_rated_kv: from_bits(n[3]),
        p_rated_mw: from_bits(n[4]),
        x_transformer_pu: from_bits(n[5]),
        scr: from_bits(n[6]),
        control_angle_deg: from_bits(n[7]),
        x_commutation_pu: from_bits(n[8]),
        arm_inductance_mh: from_bits(n[9]),
        sm_capacitance_uf: from_bits(n[10]),
    })
}

// The submodules count for an MMC alone.
fn topology_of(number: u64, n_submodules: u64) -> Result<ConverterTopology, Ended> {
    match number {
        0 => Ok(ConverterTopology::Lcc),
        1 => Ok(ConverterTopology::TwoLevelVsc),
        2 => Ok(ConverterTopology::Mmc { n_submodules }),
        3 => Ok(ConverterTopology::Hybrid),
        _ => Err(Ended),
    }
}

// Id and ends, then the doubles.
fn read_cable(reader: &mut Reader) -> Result<DcCable, Ended> {
    let n = reader.numbers::<7>()?;
    Ok(DcCable {
        id: n[0],
        from_station: n[1],
        to_station: n[2],
        r_per_km: from_bits(n[3]),
        l_per_km: from_bits(n[4]),
        c_per_km: from_bits(n[5]),
        length_km: from_bits(n[6]),
    })
}

// Id, station and kind, then the doubles, of which the kind takes the first two.
fn read_breaker(reader: &mut Reader) -> Result<DcBreaker, Ended> {
    let n = reader.numbers::<7>()?;
    Ok(DcBreaker {
        id: n[0],
        station_id: n[1],
        breaker_type: breaker_type_of(n[2], from_bits(n[3]), from_bits(n[4]))?,
        max_breaking_current_ka: from_bits(n[5]),
        energy_absorption_mj: from_bits(n[6]),
    })
}

// The kind of a breaker by the number in the line, if it is one of the three. A mechanical breaker has no second number.
fn breaker_type_of(kind: u64, time: f64, second: f64) -> Result<DcBreakerType, Ended> {
    match kind {
        0 => Ok(DcBreakerType::Mechanical {
            opening_time_ms: time,
        }),
        1 => Ok(DcBreakerType::SolidState {
            turn_off_time_us: time,
            on_state_loss_pct: second,
        }),
        2 => Ok(DcBreakerType::HybridBreaker {
            opening_time_ms: time,
            commutation_time_us: second,
        }),
        _ => Err(Ended),
    }
}

// Type, cable, fraction, resistance, inception.
pub fn read_fault(reader: &mut Reader) -> Result<DcFaultEvent, Ended> {
    let n = reader.numbers::<5>()?;
    Ok(DcFaultEvent {
        fault_type: fault_type(n[0]).ok_or(Ended)?,
        location_cable_id: n[1],
        location_fraction: from_bits(n[2]),
        fault_resistance: from_bits(n[3]),
        inception_time_ms: from_bits(n[4]),
    })
}
