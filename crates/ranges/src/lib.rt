// The accepted values: one table of lows and highs, ends included, and the one check that reads it.
#![tactic(auto)]

ghost use Rattle.std.specs.Prelude.{◌≡◌};
ghost use Rattle.ranges.specs.Ranges.{between, whole_between};

// The low end and the high end, without names: with named fields each row of the table would take four lines.
#[derive(Clone, Copy)]
pub struct Range(f64, f64);

// A row for each field, in the order of 01's list.
const RANGES: [Range; 33] = [
    Range(1.0, 2000.0), // V_DC_RATED_KV
    Range(0.0, 20000.0), // P_RATED_MW
    Range(0.0, 1000.0), // X_TRANSFORMER_PU
    Range(0.0, 1000.0), // SCR
    Range(0.0, 180.0), // CONTROL_ANGLE_DEG
    Range(0.0, 10.0), // X_COMMUTATION_PU
    Range(0.0, 1000.0), // ARM_INDUCTANCE_MH
    Range(0.0, 100000.0), // SM_CAPACITANCE_UF
    Range(0.0, 1000.0), // R_PER_KM
    Range(0.0, 1000.0), // L_PER_KM
    Range(0.0, 1000.0), // C_PER_KM
    Range(0.0, 10000.0), // LENGTH_KM
    Range(0.0, 100000.0), // OPENING_TIME_MS
    Range(0.0, 100000.0), // TURN_OFF_TIME_US
    Range(0.0, 100000.0), // COMMUTATION_TIME_US
    Range(0.0, 100.0), // ON_STATE_LOSS_PCT
    Range(0.0, 1000.0), // MAX_BREAKING_CURRENT_KA
    Range(0.0, 100000.0), // ENERGY_ABSORPTION_MJ
    Range(0.0, 1000000.0), // FAULT_RESISTANCE
    Range(0.0, 1.0), // LOCATION_FRACTION
    Range(0.0, 100000.0), // INCEPTION_TIME_MS
    Range(0.0, 10.0), // LOW_TENTH
    Range(0.0, 10.0), // HIGH_TENTH
    Range(0.0, 1000000.0), // DT_US
    Range(0.0, 100000.0), // DURATION_MS
    Range(0.0, 65535.0), // STATION_ID
    Range(0.0, 65535.0), // CABLE_ID
    Range(0.0, 65535.0), // BREAKER_ID
    Range(0.0, 65535.0), // BREAKER_STATION
    Range(0.0, 65535.0), // FROM_STATION
    Range(0.0, 65535.0), // TO_STATION
    Range(0.0, 65535.0), // LOCATION_CABLE
    Range(0.0, 65535.0), // N_SUBMODULES
];

// Each field's row. It is read when a program is compiled, so that no call has the table to build. The rows go by number: an enum of
// the fields would be a third list of the same names, and two rows swapped are refused where they are used.
pub const V_DC_RATED_KV: Range = Range(RANGES[0].0, RANGES[0].1);

pub const P_RATED_MW: Range = Range(RANGES[1].0, RANGES[1].1);

pub const X_TRANSFORMER_PU: Range = Range(RANGES[2].0, RANGES[2].1);

pub const SCR: Range = Range(RANGES[3].0, RANGES[3].1);

pub const CONTROL_ANGLE_DEG: Range = Range(RANGES[4].0, RANGES[4].1);

pub const X_COMMUTATION_PU: Range = Range(RANGES[5].0, RANGES[5].1);

pub const ARM_INDUCTANCE_MH: Range = Range(RANGES[6].0, RANGES[6].1);

pub const SM_CAPACITANCE_UF: Range = Range(RANGES[7].0, RANGES[7].1);

pub const R_PER_KM: Range = Range(RANGES[8].0, RANGES[8].1);

pub const L_PER_KM: Range = Range(RANGES[9].0, RANGES[9].1);

pub const C_PER_KM: Range = Range(RANGES[10].0, RANGES[10].1);

pub const LENGTH_KM: Range = Range(RANGES[11].0, RANGES[11].1);

pub const OPENING_TIME_MS: Range = Range(RANGES[12].0, RANGES[12].1);

pub const TURN_OFF_TIME_US: Range = Range(RANGES[13].0, RANGES[13].1);

pub const COMMUTATION_TIME_US: Range = Range(RANGES[14].0, RANGES[14].1);

pub const ON_STATE_LOSS_PCT: Range = Range(RANGES[15].0, RANGES[15].1);

pub const MAX_BREAKING_CURRENT_KA: Range = Range(RANGES[16].0, RANGES[16].1);

pub const ENERGY_ABSORPTION_MJ: Range = Range(RANGES[17].0, RANGES[17].1);

pub const FAULT_RESISTANCE: Range = Range(RANGES[18].0, RANGES[18].1);

pub const LOCATION_FRACTION: Range = Range(RANGES[19].0, RANGES[19].1);

pub const INCEPTION_TIME_MS: Range = Range(RANGES[20].0, RANGES[20].1);

pub const LOW_TENTH: Range = Range(RANGES[21].0, RANGES[21].1);

pub const HIGH_TENTH: Range = Range(RANGES[22].0, RANGES[22].1);

pub const DT_US: Range = Range(RANGES[23].0, RANGES[23].1);

pub const DURATION_MS: Range = Range(RANGES[24].0, RANGES[24].1);

pub const STATION_ID: Range = Range(RANGES[25].0, RANGES[25].1);

pub const CABLE_ID: Range = Range(RANGES[26].0, RANGES[26].1);

pub const BREAKER_ID: Range = Range(RANGES[27].0, RANGES[27].1);

pub const BREAKER_STATION: Range = Range(RANGES[28].0, RANGES[28].1);

pub const FROM_STATION: Range = Range(RANGES[29].0, RANGES[29].1);

pub const TO_STATION: Range = Range(RANGES[30].0, RANGES[30].1);

pub const LOCATION_CABLE: Range = Range(RANGES[31].0, RANGES[31].1);

pub const N_SUBMODULES: Range = Range(RANGES[32].0, RANGES[32].1);

// A NaN is in no range: no comparison with it is true.
pub fn in_range(range: Range, x: f64) -> bool
    ensures { result ≡ between range x }
{
    (range.0 <= x) & (x <= range.1)
}

// A whole number is looked up as the double that it is. From 2^53 up not every one is a double, and no range goes so far.
pub fn whole_in_range(range: Range, n: u64) -> bool
    ensures { result ≡ whole_between range n }
{
    if n >= 9007199254740992 {
        return false;
    }
    in_range(range, n as f64)
}
