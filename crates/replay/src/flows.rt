// Jobs 1, 2 and 3: a flow and the operating points of a converter. The answer is a refusal, 0 for what is accepted, and then the
// result.
use crate::bench::Bench;
use crate::grids;
use crate::numbers::Ended;
use crate::writer::Writer;
use converter::ConverterOperatingPoint;
use grid::{MOST_CABLES, MOST_STATIONS};
use operating_points::{lcc_operating_point, vsc_operating_point};
use power_flow::{DcGridSolution, solve_dc_power_flow};
use rules::Refusal;

// Job 1: a grid.
pub fn flow(b: &mut Bench) -> Result<(), Ended> {
    let grid = grids::read_grid(&mut b.reader)?;
    match solve_dc_power_flow(grid) {
        Ok(solution) => append_solution(&mut b.writer, solution, grid.n_stations, grid.n_cables),
        Err(refusal) => b.writer.append(refusal.number()),
    }
}

// Job 2: a station and a current.
pub fn lcc_point(b: &mut Bench) -> Result<(), Ended> {
    let station = grids::read_station(&mut b.reader)?;
    let current_ka = b.reader.next_double()?;
    append_answer(&mut b.writer, lcc_operating_point(station, current_ka))
}

// Job 3: a station, a power and a voltage.
pub fn vsc_point(b: &mut Bench) -> Result<(), Ended> {
    let station = grids::read_station(&mut b.reader)?;
    let [power_mw, voltage_kv] = b.reader.doubles::<2>()?;
    append_answer(
        &mut b.writer,
        vsc_operating_point(station, power_mw, voltage_kv),
    )
}

fn append_answer(
    w: &mut Writer,
    answer: Result<ConverterOperatingPoint, Refusal>,
) -> Result<(), Ended> {
    match answer {
        Ok(point) => {
            w.append(0u64)?;
            append_point(w, point)
        }
        Err(refusal) => w.append(refusal.number()),
    }
}

// No refusal; whether the flow converged, the passes and the total loss, then the stations' points and the cables' losses.
fn append_solution(
    w: &mut Writer,
    solution: DcGridSolution,
    stations: usize,
    cables: usize,
) -> Result<(), Ended> {
    w.append(0u64)?;
    w.append(solution.converged)?;
    w.append(solution.iterations)?;
    w.append(solution.total_losses_mw)?;
    for point in &solution.operating_points[..MOST_STATIONS.min(stations)] {
        append_point(w, *point)?;
    }
    w.append_all(&solution.cable_losses_mw[..MOST_CABLES.min(cables)])
}

fn append_point(w: &mut Writer, p: ConverterOperatingPoint) -> Result<(), Ended> {
    w.append(p.station_id)?;
    w.append_all(&[
        p.p_dc_mw,
        p.v_dc_kv,
        p.i_dc_ka,
        p.firing_angle_deg,
        p.power_factor,
        p.losses_mw,
    ])
}
