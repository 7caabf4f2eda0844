// The parts of a grid, what happens to one, and what a sweep is asked for: 000's types, less the station's name. Whole numbers
// are u64, so that one past its range is seen and refused, and never cut.
ghost use Rattle.std.specs.Prelude.{◌≡◌};
ghost use Rattle.grid.specs.Parts.{submodules_of};

// How a station converts.
#[derive(Clone, Copy)]
pub enum ConverterTopology {
    // line-commutated, with thyristors
    Lcc,
    // two-level voltage source converter, with IGBTs
    TwoLevelVsc,
    // modular multilevel converter; the number of submodules in an arm, 0 counting as 1
    Mmc { n_submodules: u64 },
    // line-commutated and voltage source together
    Hybrid,
}

// How a breaker opens, each kind with its own times.
#[derive(Clone, Copy)]
pub enum DcBreakerType {
    Mechanical {
        // ms
        opening_time_ms: f64,
    },
    SolidState {
        // µs
        turn_off_time_us: f64,
        // loss while conducting, %; only its range is checked
        on_state_loss_pct: f64,
    },
    HybridBreaker {
        // of the mechanical part, ms; counted times 0.3
        opening_time_ms: f64,
        // of the solid-state part, µs
        commutation_time_us: f64,
    },
}

#[derive(Clone, Copy)]
pub enum DcFaultType {
    PoleToGround,
    PoleToPole,
    // inside a converter
    ConverterInternal,
}

#[derive(Clone, Copy)]
pub struct ConverterStation {
    // compared with the ends of cables for the station's capacitance, and reported in operating points; all else goes by position
    pub id: u64,
    pub topology: ConverterTopology,
    // rated dc voltage, kV
    pub v_dc_rated_kv: f64,
    // rated power, MW
    pub p_rated_mw: f64,
    // transformer's reactance, per unit; only its range is checked
    pub x_transformer_pu: f64,
    // short-circuit ratio of the ac system; only its range is checked
    pub scr: f64,
    // firing or modulation angle, degrees
    pub control_angle_deg: f64,
    // commutation reactance, per unit, of an LCC
    pub x_commutation_pu: f64,
    // inductance of an arm, mH; meant for an MMC, counted in the fault circuit for every topology
    pub arm_inductance_mh: f64,
    // capacitance of a submodule, µF; meant for an MMC, counted in the fault circuit for every topology
    pub sm_capacitance_uf: f64,
}

#[derive(Clone, Copy)]
pub struct DcCable {
    // only its range is checked: a cable is named by its position
    pub id: u64,
    // position of the station at the first end
    pub from_station: u64,
    // position of the station at the second end
    pub to_station: u64,
    // resistance, Ω/km
    pub r_per_km: f64,
    // inductance, mH/km
    pub l_per_km: f64,
    // capacitance, µF/km
    pub c_per_km: f64,
    // length, km
    pub length_km: f64,
}

#[derive(Clone, Copy)]
pub struct DcBreaker {
    // only its range is checked: a breaker is named by its position
    pub id: u64,
    // position of the station at which the breaker stands, whatever the name says: no station's id
    pub station_id: u64,
    pub breaker_type: DcBreakerType,
    // the most current that it breaks, kA
    pub max_breaking_current_ka: f64,
    // the most energy that it absorbs, MJ
    pub energy_absorption_mj: f64,
}

#[derive(Clone, Copy)]
pub struct DcFaultEvent {
    pub fault_type: DcFaultType,
    // position of the faulted cable, whatever the name says: no cable's id
    pub location_cable_id: u64,
    // distance from the cable's first end, as a part of its length: 0 to 1
    pub location_fraction: f64,
    // Ω
    pub fault_resistance: f64,
    // when the fault begins, ms from the start of the run
    pub inception_time_ms: f64,
}

// The faults of a sweep: their resistance and inception, and from which tenth of a cable to which they are tried.
#[derive(Clone, Copy)]
pub struct SweepOrder {
    // Ω
    pub fault_resistance: f64,
    // when the fault begins, ms from the start of each case
    pub inception_time_ms: f64,
    // the first fraction tried, in tenths of a cable from its first end
    pub low_tenth: u64,
    // the last one, in tenths
    pub high_tenth: u64,
}

// The submodules that an MMC's formulas count.
pub fn counted_submodules(n_submodules: u64) -> u64
    ensures { result ≡ submodules_of n_submodules }
{
    n_submodules.max(1)
}
