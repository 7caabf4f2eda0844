// Operating points and losses at given voltages.
ghost use Rattle.std.specs.Prelude.{◌≡◌, get_or};
ghost use Rattle.lists.specs.Tables.{padded};
ghost use Rattle.float64.specs.Arithmetic.{◌⊗◌, added_up, sum_of, of};
ghost use Rattle.converter.specs.Point.{blank_point};
ghost use Rattle.grid.specs.Simulator.{blank_station, station_count, cable_count};
ghost use Rattle.power_flow.specs.Solution.{is_lcc, operating_point, converter_point, cable_loss, loss_of, cable_losses};

use converter::{ConverterOperatingPoint, lcc_point, no_point, vsc_point};
use float64::abs;
use flow_voltages::Found;
use grid::{
    CableCount, ConverterStation, ConverterTopology, DcCable, DcSwitchingSimulator, MOST_CABLES,
    MOST_STATIONS, StationCount, cable_resistance, cut_end,
};

// The points of all stations, and a total with their losses.
#[derive(Clone, Copy)]
pub struct Points {
    pub points: [ConverterOperatingPoint; MOST_STATIONS],
    pub total_losses_mw: f64,
}

// The points of a grid's stations at their voltages and currents, zeros past them; and the sum of the losses handed in and theirs. One index goes through
// stations, voltages, currents and points.
#[tactic(auto, using(lists::proofs::Fills::upto_none, lists::proofs::Fills::upto_more, lists::proofs::Fills::get_d_within, float64::proofs::Sums::added_more), unfolding(lists::specs::Tables::blank))]
pub fn operating_points(g: &DcSwitchingSimulator, found: &Found, losses: f64) -> Points
    ensures points { result.points ≡ padded 32 (station_count g.now.n_stations) (λ k. operating_point (get_or g.now.stations k blank_station) (of found.now.voltages.v_dc_kv k) (of found.now.i_dc_ka k)) blank_point }
    ensures losses { result.total_losses_mw ≡ added_up losses (λ k. (operating_point (get_or g.now.stations k blank_station) (of found.now.voltages.v_dc_kv k) (of found.now.i_dc_ka k)).losses_mw) (station_count g.now.n_stations) }
{
    let n = StationCount::of(g.n_stations);
    let mut points = [no_point(); MOST_STATIONS];
    let mut total = losses;
    for i in 0..n.value {
        let point = operating_point(g.stations[i], found.voltages.v_dc_kv[i], found.i_dc_ka[i]);
        points[i] = point;
        total += point.losses_mw;
    }
    Points {
        points,
        total_losses_mw: total,
    }
}

// A station's point in the flow: power, voltage and current are the flow's, the angle, the power factor and the losses are the converter's.
#[tactic(auto, unfolding(crate::specs::Solution::operating_point))]
fn operating_point(station: ConverterStation, v: f64, current: f64) -> ConverterOperatingPoint
    ensures { result ≡ operating_point station v current }
{
    let p = v * current;
    let point = converter_point(station, v, current, p);
    ConverterOperatingPoint {
        station_id: station.id,
        p_dc_mw: p,
        v_dc_kv: v,
        i_dc_ka: current,
        firing_angle_deg: point.firing_angle_deg,
        power_factor: point.power_factor,
        losses_mw: point.losses_mw,
    }
}

// The converter's own point: an LCC at the size of the current, any other at the size of the power.
fn converter_point(
    station: ConverterStation,
    v: f64,
    current: f64,
    p: f64,
) -> ConverterOperatingPoint
    requires { p ≡ v ⊗ current }
    ensures { result ≡ converter_point station v current }
{
    let topology = station.topology;
    if is_lcc(topology) {
        return lcc_point(station, abs(current));
    }
    vsc_point(station, abs(p), v)
}

#[tactic(auto, unfolding(crate::specs::Solution::is_lcc))]
fn is_lcc(topology: ConverterTopology) -> bool
    ensures { result ≡ is_lcc topology }
{
    matches!(topology, ConverterTopology::Lcc)
}

// The losses of a grid's cables in MW at the stations' voltages, zeros past them, whatever stood in the array before; and their sum, in the cables' order.
// Returned in a struct the array is copied, as in `flow_voltages`. One index goes through the cables and their losses.
#[tactic(auto, using(lists::proofs::Fills::upto_none, lists::proofs::Fills::upto_more, lists::proofs::Fills::get_d_within, float64::proofs::Sums::added_more), unfolding(lists::specs::Tables::blank))]
pub fn cable_losses(
    losses: &mut [f64; MOST_CABLES],
    g: &DcSwitchingSimulator,
    v: &[f64; MOST_STATIONS],
) -> f64
    ensures losses { losses.new ≡ cable_losses g.now.cables (cable_count g.now.n_cables) (station_count g.now.n_stations) v.now }
    ensures sum { result ≡ sum_of (loss_of g.now.cables (station_count g.now.n_stations) v.now) (cable_count g.now.n_cables) }
{
    let n = StationCount::of(g.n_stations);
    let n_cables = CableCount::of(g.n_cables);
    *losses = [0.0; MOST_CABLES];
    let mut sum = 0.0;
    for i in 0..n_cables.value {
        let loss = cable_loss(g.cables[i], v, n);
        losses[i] = loss;
        sum += loss;
    }
    sum
}

// A cable's loss in MW. An end at or past the count is cut to the last station. Without stations the first place is read, so that the whole array is lent,
// with the count beside it.
#[tactic(auto, unfolding(crate::specs::Solution::cable_loss))]
fn cable_loss(c: DcCable, v: &[f64; MOST_STATIONS], n: StationCount) -> f64
    ensures { result ≡ cable_loss n.value v.now c }
{
    let from = cut_end(c.from_station, n.value);
    let to = cut_end(c.to_station, n.value);
    let r = cable_resistance(c);
    let i = (v[from] - v[to]) / r;
    abs(i * i * r)
}
