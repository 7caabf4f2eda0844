// The circuit's parameters: the cable up to the fault, the station that feeds it, and the capacitance of all stations.
ghost use Rattle.std.specs.Prelude.{◌≡◌, get_or, length};
ghost use Rattle.float64.specs.Arithmetic.{sum_of};
ghost use Rattle.grid.specs.Simulator.{blank_station};
ghost use Rattle.fault_circuit.specs.Parameters.{parameters_at, parameters_of};

use float64::{clamp, max};
use grid::{
    CableCount, ConverterStation, DcCable, DcFaultEvent, DcSwitchingSimulator, StationCount,
    cut_end,
};

#[derive(Clone, Copy)]
pub struct RlcParameters {
    pub l_total_mh: f64,
    pub c_total_uf: f64,
    pub r_total_ohm: f64,
    pub r_fault_ohm: f64,
    pub v_dc_kv: f64,
}

// DcSwitchingSimulator::fault_rlc_params
pub fn fault_rlc_params(g: DcSwitchingSimulator, fault: DcFaultEvent) -> RlcParameters
    ensures { result ≡ parameters_of g fault }
{
    let n = StationCount::of(g.n_stations).value;
    let m = CableCount::of(g.n_cables).value;
    // Without cables or stations the first place of the array is read, which is no part of the grid.
    let cable = g.cables[cut_end(fault.location_cable_id, m)];
    let station = g.stations[cut_end(cable.from_station, n)];
    parameters_at(cable, station, capacitance_of(g.present_stations()), fault)
}

// The circuit of a fault on a cable that a station feeds. The cable's resistance and inductance count up to the fault, its capacitance whole. 1 mH is for smoothing.
#[tactic(auto, unfolding(crate::specs::Parameters::parameters_at))]
fn parameters_at(
    cable: DcCable,
    station: ConverterStation,
    stations_uf: f64,
    fault: DcFaultEvent,
) -> RlcParameters
    ensures { result ≡ parameters_at cable station stations_uf fault }
{
    let dist = cable.length_km * clamp(fault.location_fraction, 0.0, 1.0);
    RlcParameters {
        l_total_mh: cable.l_per_km * dist + station.arm_inductance_mh + 1.0,
        c_total_uf: max(cable.c_per_km * cable.length_km + stations_uf, 0.01),
        r_total_ohm: max(cable.r_per_km * dist, 0.01),
        r_fault_ohm: fault.fault_resistance,
        v_dc_kv: station.v_dc_rated_kv,
    }
}

// The submodule capacitances of stations, added up in their order.
fn capacitance_of(stations: &[ConverterStation]) -> f64
    ensures { result ≡ sum_of (λ k. (get_or stations.now k blank_station).sm_capacitance_uf) (length stations.now) }
{
    let mut sum = 0.0;
    for s in stations {
        sum += s.sm_capacitance_uf;
    }
    sum
}
