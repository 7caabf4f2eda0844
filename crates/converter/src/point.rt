// What is known of a station in the steady state.
ghost use Rattle.std.specs.Prelude.{◌≡◌};
ghost use Rattle.converter.specs.Point.{blank_point};

// 000's operating point.
#[derive(Clone, Copy)]
pub struct ConverterOperatingPoint {
    pub station_id: u64,
    pub p_dc_mw: f64,
    pub v_dc_kv: f64,
    pub i_dc_ka: f64,
    pub firing_angle_deg: f64,
    pub power_factor: f64,
    pub losses_mw: f64,
}

// A point of zeros, as it stands past the count of stations.
pub fn no_point() -> ConverterOperatingPoint
    ensures { result ≡ blank_point }
{
    ConverterOperatingPoint {
        station_id: 0,
        p_dc_mw: 0.0,
        v_dc_kv: 0.0,
        i_dc_ka: 0.0,
        firing_angle_deg: 0.0,
        power_factor: 0.0,
        losses_mw: 0.0,
    }
}
