// The line-commutated converter: V = Vd0 cos(alpha) - (3/PI) Xc I.
ghost use Rattle.std.specs.Prelude.{◌≡◌};
ghost use Rattle.converter.specs.Lcc.{cos_alpha_of, base_impedance, lcc_voltage, lcc_power_factor, lcc_losses, lcc_point};

use crate::floor::LEAST;
use crate::point::ConverterOperatingPoint;
use elementary::cos;
use float64::{PI, abs, clamp, max, min, to_radians};
use grid::ConverterStation;
use square_root::SQRT_2;

// A station with what its equations share: the cosine of its control angle, and its base impedance in ohms.
#[derive(Clone, Copy)]
struct LccStation {
    station: ConverterStation,
    cos_alpha: f64,
    z_base: f64,
    ghost cosine: { cos_alpha ≡ cos_alpha_of station },
    ghost impedance: { z_base ≡ base_impedance station },
}

// The operating point at a DC current, of any station, accepted or not.
pub fn lcc_point(station: ConverterStation, i_dc_ka: f64) -> ConverterOperatingPoint
    ensures { result ≡ lcc_point station i_dc_ka }
{
    let lcc = LccStation::of(station);
    let v_dc = lcc.voltage(i_dc_ka);
    ConverterOperatingPoint {
        station_id: station.id,
        p_dc_mw: v_dc * i_dc_ka,
        v_dc_kv: v_dc,
        i_dc_ka,
        firing_angle_deg: station.control_angle_deg,
        power_factor: lcc.power_factor(i_dc_ka),
        losses_mw: lcc.losses(i_dc_ka),
    }
}

// The base impedance in ohms: the rated voltage squared over the rated power.
fn base_impedance(station: ConverterStation) -> f64
    ensures { result ≡ base_impedance station }
{
    let v = station.v_dc_rated_kv;
    v * v / max(station.p_rated_mw, LEAST)
}

impl LccStation {
    fn of(station: ConverterStation) -> Self
        ensures { result.station ≡ station }
    {
        LccStation {
            station,
            cos_alpha: cos(to_radians(station.control_angle_deg)),
            z_base: base_impedance(station),
        }
    }

    // The DC voltage in kV.
    fn voltage(self, i_dc_ka: f64) -> f64
        ensures { result ≡ lcc_voltage self.station i_dc_ka }
    {
        let v_ac_kv = self.station.v_dc_rated_kv * PI / (3.0 * SQRT_2);
        let v_d0 = (3.0 * SQRT_2 / PI) * v_ac_kv;
        let x_c = self.station.x_commutation_pu * self.z_base;
        v_d0 * self.cos_alpha - (3.0 / PI) * x_c * i_dc_ka
    }

    // The power factor, from 0 to 1. For the overlap angle 000 takes a difference of cosines, and at most PI/4.
    fn power_factor(self, i_dc_ka: f64) -> f64
        ensures { result ≡ lcc_power_factor self.station i_dc_ka }
    {
        let station = self.station;
        let p = max(station.p_rated_mw, LEAST);
        let drop = 2.0 * station.x_commutation_pu * i_dc_ka / p * station.v_dc_rated_kv;
        let mu_arg = clamp(self.cos_alpha - drop, -1.0, 1.0);
        let mu_rad = min(abs(self.cos_alpha - mu_arg), PI / 4.0);
        clamp(self.cos_alpha * (1.0 - mu_rad / 2.0), 0.0, 1.0)
    }

    // The losses in MW: a part of the rated power, and what the current loses in the converter.
    fn losses(self, i_dc_ka: f64) -> f64
        ensures { result ≡ lcc_losses self.station i_dc_ka }
    {
        let r_conv = 0.001 * self.z_base;
        abs(0.007 * self.station.p_rated_mw + i_dc_ka * i_dc_ka * r_conv)
    }
}
