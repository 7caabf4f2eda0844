// Currents and mismatches at given voltages.
ghost use Rattle.std.specs.Prelude.{◌≡◌, ◌<◌, ◌-◌, length};
ghost use Rattle.std.specs.Float.{nan};
ghost use Rattle.lists.specs.Tables.{over};
ghost use Rattle.float64.specs.Arithmetic.{◌⊕◌, ◌⊗◌, of};
ghost use Rattle.grid.specs.Simulator.{station_count};
ghost use Rattle.conductances.specs.Conductances as specs;
ghost use Rattle.conductances.specs.Conductances.{cell};
ghost use Rattle.conductances.specs.Symmetric.{Symmetric};
ghost use Rattle.flow_voltages.specs.Balance.{currents, mismatches, largest};

use conductances::conductances_of;
use float64::{abs, max};
use grid::{DcSwitchingSimulator, MOST_STATIONS, StationCount};

// The conductances between the stations that there are: a count beside the matrix, whose rows are 32 long whatever it is.
#[derive(Clone, Copy)]
pub struct Conductances {
    pub n: StationCount,
    pub entries: [f64; 1024],
    ghost symmetric: { Symmetric n.value entries },
}

impl Conductances {
    // Those of any grid, accepted or not.
    #[tactic(auto, using(conductances::proofs::Entries::of_grid_symmetric))]
    pub fn of(g: &DcSwitchingSimulator) -> Self
        ensures n { result.n.value ≡ station_count g.now.n_stations }
        ensures entries { result.entries ≡ specs.conductances_of g.now }
    {
        Conductances {
            n: StationCount::of(g.n_stations),
            entries: conductances_of(g),
        }
    }
}

// The current of every station. Column after column: for each station the products are added in the same order as along its row, and a column is added to
// all stations at once. What stood in the array before is gone: it is lent, since a flow of two stations took three times as long where such arrays were returned, and copied in every pass.
#[tactic(auto, using(crate::proofs::Columns::column_none), unfolding(crate::specs::Balance::current, lists::specs::Tables::blank))]
pub fn station_currents(sums: &mut [f64; MOST_STATIONS], m: &Conductances, v: &[f64; MOST_STATIONS])
    ensures { sums.new ≡ currents m.now.entries m.now.n.value v.now }
{
    *sums = [0.0; MOST_STATIONS];
    for j in 0..m.n.value {
        add_column(sums, m, j, v[j]);
    }
}

// Adds the products of one column with the voltage x. The matrix is symmetric, so its row j is read.
#[tactic(auto, using(lists::proofs::Fills::upto_none, lists::proofs::Fills::upto_more, lists::proofs::Fills::upto_over, lists::proofs::Fills::get_d_upto_out))]
fn add_column(sums: &mut [f64; MOST_STATIONS], m: &Conductances, j: usize, x: f64)
    requires { j < m.now.n.value }
    ensures { sums.new ≡ over m.now.n.value (λ i. of sums.old i ⊕ cell m.now.entries j i ⊗ x) nan sums.old }
{
    for i in 0..m.n.value {
        sums[i] += m.entries[j * MOST_STATIONS + i] * x;
    }
}

// What the power of each station but the first lacks at given voltages, whatever stood in the array before.
#[tactic(auto, using(crate::proofs::Turns::later, lists::proofs::Fills::upto_more))]
pub fn mismatches_at(
    d: &mut [f64; MOST_STATIONS],
    m: &Conductances,
    wanted: &[f64; MOST_STATIONS],
    v: &[f64; MOST_STATIONS],
)
    ensures { d.new ≡ mismatches m.now.entries wanted.now m.now.n.value v.now }
{
    let mut currents = [0.0; MOST_STATIONS];
    station_currents(&mut currents, m, v);
    *d = [0.0; MOST_STATIONS];
    for i in 1..m.n.value {
        d[i] = wanted[i] - v[i] * currents[i];
    }
}

// The largest size of a mismatch; 0 where there is one station. A NaN is passed over.
pub fn largest_mismatch(d: &[f64]) -> f64
    ensures { result ≡ largest d.now (length d.now - 1) }
{
    let mut most = 0.0;
    for i in 1..d.len() {
        most = max(most, abs(d[i]));
    }
    most
}
