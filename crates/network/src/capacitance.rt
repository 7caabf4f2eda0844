// The capacitance at a station: the converter's own, and half of each cable's.
ghost use Rattle.std.specs.Prelude.{◌≡◌};
ghost use Rattle.grid.specs.Simulator.{cables_of};
ghost use Rattle.network.specs.Capacitance.{own_capacitance, mmc_capacitance, rated_capacitance, half_of, with_cable, joined_capacitance, capacitance_with, capacitance_at};

use float64::max;
use grid::{
    ConverterStation, ConverterTopology, DcCable, DcSwitchingSimulator, counted_submodules,
};
use std::num::nearest_u64_to_f64;

// DcSwitchingSimulator::station_capacitance_uf
pub fn station_capacitance_uf(g: DcSwitchingSimulator, station: ConverterStation) -> f64
    ensures { result ≡ capacitance_at (cables_of g) station }
{
    let joined = joined_capacitance(station.id, g.present_cables());
    capacitance_with(station, joined)
}

// The capacitance in µF at a station to which cables add `joined`, at least 0.01.
pub fn capacitance_with(station: ConverterStation, joined: f64) -> f64
    ensures { result ≡ capacitance_with station joined }
{
    max(own_capacitance(station) + joined, 0.01)
}

// What the cables add to the capacitance at a station of this id, in µF.
#[tactic(auto, unfolding(crate::specs::Capacitance::joined_capacitance))]
pub fn joined_capacitance(id: u64, cables: &[DcCable]) -> f64
    ensures { result ≡ joined_capacitance id cables.now }
{
    let mut joined = 0.0;
    for c in cables {
        joined = with_cable(id, joined, *c);
    }
    joined
}

// The sum with half of a cable more, if an end of the cable is the station's id; not twice if both are.
fn with_cable(id: u64, joined: f64, c: DcCable) -> f64
    ensures { result ≡ with_cable id joined c }
{
    if c.from_station == id {
        return joined + half_of(c);
    }
    if c.to_station == id {
        return joined + half_of(c);
    }
    joined
}

// Half of a cable's capacitance, in µF.
fn half_of(c: DcCable) -> f64
    ensures { result ≡ half_of c }
{
    c.c_per_km * c.length_km * 0.5
}

// The converter's own capacitance in µF.
#[tactic(auto, unfolding(crate::specs::Capacitance::own_capacitance))]
fn own_capacitance(station: ConverterStation) -> f64
    ensures { result ≡ own_capacitance station }
{
    let topology = station.topology;
    match topology {
        ConverterTopology::Lcc => rated_capacitance(station.v_dc_rated_kv, station.p_rated_mw),
        ConverterTopology::TwoLevelVsc => rated_capacitance(
            station.v_dc_rated_kv,
            station.p_rated_mw,
        ),
        ConverterTopology::Mmc { n_submodules } => mmc_capacitance(
            station.sm_capacitance_uf,
            n_submodules,
        ),
        ConverterTopology::Hybrid => rated_capacitance(station.v_dc_rated_kv, station.p_rated_mw),
    }
}

// An MMC: 000 multiplies by the submodules, though its comment divides.
fn mmc_capacitance(sm_capacitance_uf: f64, n_submodules: u64) -> f64
    ensures { result ≡ mmc_capacitance sm_capacitance_uf n_submodules }
{
    sm_capacitance_uf * nearest_u64_to_f64(counted_submodules(n_submodules)) / 6.0
}

// Any other converter: from the rated power and voltage, each at least 1.
fn rated_capacitance(v_dc_rated_kv: f64, p_rated_mw: f64) -> f64
    ensures { result ≡ rated_capacitance v_dc_rated_kv p_rated_mw }
{
    let v = max(v_dc_rated_kv, 1.0);
    let p = max(p_rated_mw, 1.0);
    p / (v * v * 314.0) * 1000000.0
}
