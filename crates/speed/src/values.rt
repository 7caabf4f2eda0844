// Functions of one number: operating points, the current of a fault and what is printed.
use crate::grids;
use decimals::decimal_column;
use grid::ConverterTopology;
use operating_points::{lcc_operating_point, vsc_operating_point};

// Control angle and current are x: past 180 all is refused, which counts as 0.
pub fn lcc_value(x: f64) -> f64 {
    let mut station = grids::station(0, ConverterTopology::Lcc, 1000.0);
    station.control_angle_deg = x;
    let Ok(point) = lcc_operating_point(station, x) else {
        return 0.0;
    };
    point.p_dc_mw + point.power_factor + point.losses_mw
}

// The power is x, and the submodules are others in each turn, so that the root of their number is taken anew.
pub fn vsc_value(x: f64, left: u64) -> f64 {
    let mmc = ConverterTopology::Mmc {
        n_submodules: left % 400,
    };
    let station = grids::station(0, mmc, 1000.0);
    let Ok(point) = vsc_operating_point(station, x, 320.0) else {
        return 0.0;
    };
    point.i_dc_ka + point.firing_angle_deg + point.losses_mw
}

// Of what is printed for x.
pub fn last_byte(x: f64) -> f64 {
    let column = decimal_column(x);
    f64::from(column[20])
}
