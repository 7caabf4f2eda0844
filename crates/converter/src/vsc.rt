// The voltage-source converter.
ghost use Rattle.std.specs.Prelude.{◌≡◌};
ghost use Rattle.converter.specs.Vsc.{modulation, losses_at, loss_factor, vsc_point};

use crate::floor::LEAST;
use crate::point::ConverterOperatingPoint;
use float64::{PI, abs, clamp, max};
use grid::{ConverterStation, ConverterTopology, counted_submodules};
use square_root::sqrt;
use std::num::nearest_u64_to_f64;

// The root of 1.5.
const ROOT_OF_3_2: f64 = 1.224744871391589;

// The operating point at a power and a DC voltage, of any station, accepted or not. The voltage is raised to LEAST.
pub fn vsc_point(station: ConverterStation, p_mw: f64, v_dc_kv: f64) -> ConverterOperatingPoint
    ensures { result ≡ vsc_point station p_mw v_dc_kv }
{
    let v_dc = max(v_dc_kv, LEAST);
    let i_dc_ka = p_mw / v_dc;
    let topology = station.topology;
    let factor = loss_factor(topology);
    ConverterOperatingPoint {
        station_id: station.id,
        p_dc_mw: p_mw,
        v_dc_kv: v_dc,
        i_dc_ka,
        firing_angle_deg: modulation(v_dc) * 180.0 / PI,
        power_factor: 1.0,
        losses_mw: abs(losses(station, i_dc_ka) * factor),
    }
}

// The modulation index, worked back from the DC voltage.
fn modulation(v_dc: f64) -> f64
    ensures { result ≡ modulation v_dc }
{
    let v_ac_kv = v_dc / ROOT_OF_3_2;
    if v_ac_kv > LEAST {
        return clamp(v_dc / (v_ac_kv * ROOT_OF_3_2), 0.0, 1.15);
    }
    0.85
}

// The losses in MW before the topology's factor: a + b I + c I^2, with a, b and c from the ratings.
fn losses(station: ConverterStation, i_dc_ka: f64) -> f64
    ensures { result ≡ losses_at station i_dc_ka }
{
    let p = station.p_rated_mw;
    let i_rated = p / max(station.v_dc_rated_kv, LEAST);
    let a = 0.005 * p;
    let b = 0.001 * p / max(i_rated, LEAST);
    let c = 0.005 * p / max(i_rated * i_rated, 0.000000000001);
    a + b * abs(i_dc_ka) + c * i_dc_ka * i_dc_ka
}

// The topology's factor on these losses. That of an MMC falls with the root of its submodules.
fn loss_factor(topology: ConverterTopology) -> f64
    ensures { result ≡ loss_factor topology }
{
    match topology {
        ConverterTopology::Lcc => 0.6,
        ConverterTopology::TwoLevelVsc => 1.0,
        ConverterTopology::Mmc { n_submodules } => {
            0.5 + 0.5 / sqrt(nearest_u64_to_f64(counted_submodules(n_submodules)))
        }
        ConverterTopology::Hybrid => 0.8,
    }
}
