// The voltages, pass by pass.
ghost use Rattle.std.specs.Prelude.{◌≡◌, cond, eqb};
ghost use Rattle.std.specs.Float.Ieee.{neg};
ghost use Rattle.float64.specs.Constants.{nought};
ghost use Rattle.float64.specs.Arithmetic.{◌⊗◌};
ghost use Rattle.grid.specs.Simulator.{station_count};
ghost use Rattle.flow_voltages.specs.Constants.{loading, most_passes};
ghost use Rattle.flow_voltages.specs.Balance.{wanted_powers, currents_of};
ghost use Rattle.flow_voltages.specs.Voltages.{passes, rated_voltages, voltages_of};

use crate::balance::{Conductances, largest_mismatch, mismatches_at, station_currents};
use grid::{DcSwitchingSimulator, MOST_STATIONS, StationCount};
use voltage_moves::move_voltages;

// The part of its rated power that a station takes.
const LOADING: f64 = 0.8;

const MOST_PASSES: u64 = 50;

// The mismatch, in MW, below which the passes stop.
const TOLERANCE: f64 = 0.000001;

// 000's voltages, which stand where they have not converged too.
#[derive(Clone, Copy)]
pub struct Voltages {
    pub v_dc_kv: [f64; MOST_STATIONS],
    pub converged: bool,
    pub iterations: u64,
}

// Voltages, and the stations' currents at them.
#[derive(Clone, Copy)]
pub struct Found {
    pub voltages: Voltages,
    pub i_dc_ka: [f64; MOST_STATIONS],
}

// What the loop over passes yields by its break.
#[derive(Clone, Copy)]
struct Outcome {
    converged: bool,
    iterations: u64,
}

// The voltages of any grid, accepted or not.
pub fn find_voltages(g: DcSwitchingSimulator) -> Voltages
    ensures { result ≡ voltages_of g }
{
    let found = find_with_currents(&g);
    found.voltages
}

// The same, with the stations' currents at these voltages, from the same conductances.
#[tactic(auto, unfolding(crate::specs::Voltages::voltages))]
pub fn find_with_currents(g: &DcSwitchingSimulator) -> Found
    ensures voltages { result.voltages ≡ voltages_of g.now }
    ensures currents { result.i_dc_ka ≡ currents_of g.now (voltages_of g.now).v_dc_kv }
{
    let m = Conductances::of(g);
    let mut rated = [0.0; MOST_STATIONS];
    let mut wanted = [0.0; MOST_STATIONS];
    read_ratings(&mut rated, &mut wanted, g);
    let voltages = run_passes(&m, &rated, &wanted);
    let mut i_dc_ka = [0.0; MOST_STATIONS];
    station_currents(&mut i_dc_ka, &m, &voltages.v_dc_kv);
    Found { voltages, i_dc_ka }
}

// Passes from the rated voltages on, until all mismatches are below TOLERANCE or 50 passes are made. Station 0 holds its voltage, the others their power.
#[tactic(auto, using(crate::proofs::Passes::passes_out, crate::proofs::Passes::turn_hit, crate::proofs::Passes::turn_on, crate::proofs::Passes::largest_present))]
fn run_passes(
    m: &Conductances,
    rated: &[f64; MOST_STATIONS],
    wanted: &[f64; MOST_STATIONS],
) -> Voltages
    ensures { result ≡ passes m.now.entries m.now.n.value rated.now wanted.now most_passes 0 rated.now }
{
    let mut v = *rated;
    let mut d = [0.0; MOST_STATIONS];
    let mut passes = 0;
    // A loop that is left by break, as the scope document has it.
    let outcome = loop {
        if passes == MOST_PASSES {
            break Outcome {
                converged: false,
                iterations: passes,
            };
        }
        mismatches_at(&mut d, m, wanted, &v);
        let largest = largest_mismatch(&d[..m.n.value]);
        passes += 1;
        if largest < TOLERANCE {
            break Outcome {
                converged: true,
                iterations: passes,
            };
        }
        move_voltages(&mut v, rated, &d, &m.entries, m.n.value);
    };
    Voltages {
        v_dc_kv: v,
        converged: outcome.converged,
        iterations: outcome.iterations,
    }
}

// The voltages that the passes begin at and the powers that they look for, of any grid, whatever stood in the arrays before. Returned in a struct they are copied, and a flow of two
// stations takes a tenth to a fifth longer. One index goes through the stations and both arrays.
#[tactic(auto, using(lists::proofs::Fills::upto_none, lists::proofs::Fills::upto_more, lists::proofs::Fills::get_d_within), unfolding(lists::specs::Tables::blank))]
fn read_ratings(
    rated: &mut [f64; MOST_STATIONS],
    wanted: &mut [f64; MOST_STATIONS],
    g: &DcSwitchingSimulator,
)
    ensures rated { rated.new ≡ rated_voltages g.now.stations (station_count g.now.n_stations) }
    ensures wanted { wanted.new ≡ wanted_powers g.now.stations (station_count g.now.n_stations) }
{
    let n = StationCount::of(g.n_stations);
    *rated = [0.0; MOST_STATIONS];
    *wanted = [0.0; MOST_STATIONS];
    for i in 0..n.value {
        let s = g.stations[i];
        rated[i] = s.v_dc_rated_kv;
        wanted[i] = wanted_power(i, s.p_rated_mw);
    }
}

// The power in MW that station i is to have: below 0, since it takes power from the grid. Of station 0 none is asked for: it has what is left.
fn wanted_power(i: usize, p_rated_mw: f64) -> f64
    ensures { result ≡ cond (eqb i 0) nought (neg p_rated_mw ⊗ loading) }
{
    if i == 0 {
        return 0.0;
    }
    -p_rated_mw * LOADING
}
