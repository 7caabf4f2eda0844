// When a station, a cable, a breaker, a fault and a sweep order are accepted: every field lies in its range.
ghost use Rattle.std.specs.Prelude.{◌≡◌};
ghost use Rattle.part_checks.specs.PartChecks.{topology_ok, breaker_type_ok, station_ok, cable_ok, breaker_ok, fault_ok, order_ok};

use grid::{
    ConverterStation, ConverterTopology, DcBreaker, DcBreakerType, DcCable, DcFaultEvent,
    SweepOrder,
};
use ranges::{in_range, whole_in_range};

fn check_topology(topology: ConverterTopology) -> bool
    ensures { result ≡ topology_ok topology }
{
    match topology {
        ConverterTopology::Mmc { n_submodules } => whole_in_range(
            ranges::N_SUBMODULES,
            n_submodules,
        ),
        ConverterTopology::Lcc | ConverterTopology::TwoLevelVsc | ConverterTopology::Hybrid => true,
    }
}

// Whether every field of a station is in its range.
pub fn check_station(s: ConverterStation) -> bool
    ensures { result ≡ station_ok s }
{
    let t = check_topology(s.topology);
    let id = whole_in_range(ranges::STATION_ID, s.id);
    let kv = in_range(ranges::V_DC_RATED_KV, s.v_dc_rated_kv);
    let mw = in_range(ranges::P_RATED_MW, s.p_rated_mw);
    let x = in_range(ranges::X_TRANSFORMER_PU, s.x_transformer_pu);
    let scr = in_range(ranges::SCR, s.scr);
    let angle = in_range(ranges::CONTROL_ANGLE_DEG, s.control_angle_deg);
    let xc = in_range(ranges::X_COMMUTATION_PU, s.x_commutation_pu);
    let arm = in_range(ranges::ARM_INDUCTANCE_MH, s.arm_inductance_mh);
    let sm = in_range(ranges::SM_CAPACITANCE_UF, s.sm_capacitance_uf);
    kv & mw & x & scr & angle & xc & arm & sm & id & t
}

// Whether every field of a cable is in its range.
pub fn check_cable(c: DcCable) -> bool
    ensures { result ≡ cable_ok c }
{
    let id = whole_in_range(ranges::CABLE_ID, c.id);
    let from = whole_in_range(ranges::FROM_STATION, c.from_station);
    let to = whole_in_range(ranges::TO_STATION, c.to_station);
    let r = in_range(ranges::R_PER_KM, c.r_per_km);
    let l = in_range(ranges::L_PER_KM, c.l_per_km);
    let cap = in_range(ranges::C_PER_KM, c.c_per_km);
    let length = in_range(ranges::LENGTH_KM, c.length_km);
    r & l & cap & length & id & from & to
}

fn check_breaker_type(breaker_type: DcBreakerType) -> bool
    ensures { result ≡ breaker_type_ok breaker_type }
{
    match breaker_type {
        DcBreakerType::Mechanical { opening_time_ms } => in_range(
            ranges::OPENING_TIME_MS,
            opening_time_ms,
        ),
        DcBreakerType::SolidState {
            turn_off_time_us,
            on_state_loss_pct,
        } => {
            in_range(ranges::TURN_OFF_TIME_US, turn_off_time_us)
                & in_range(ranges::ON_STATE_LOSS_PCT, on_state_loss_pct)
        }
        DcBreakerType::HybridBreaker {
            opening_time_ms,
            commutation_time_us,
        } => {
            in_range(ranges::OPENING_TIME_MS, opening_time_ms)
                & in_range(ranges::COMMUTATION_TIME_US, commutation_time_us)
        }
    }
}

// Whether every field of a breaker is in its range, the times of its kind among them.
pub fn check_breaker(b: DcBreaker) -> bool
    ensures { result ≡ breaker_ok b }
{
    let times = check_breaker_type(b.breaker_type);
    let id = whole_in_range(ranges::BREAKER_ID, b.id);
    let station = whole_in_range(ranges::BREAKER_STATION, b.station_id);
    let current = in_range(ranges::MAX_BREAKING_CURRENT_KA, b.max_breaking_current_ka);
    let energy = in_range(ranges::ENERGY_ABSORPTION_MJ, b.energy_absorption_mj);
    times & current & energy & id & station
}

// Whether every field of a fault is in its range.
pub fn check_event(f: DcFaultEvent) -> bool
    ensures { result ≡ fault_ok f }
{
    let cable = whole_in_range(ranges::LOCATION_CABLE, f.location_cable_id);
    let fraction = in_range(ranges::LOCATION_FRACTION, f.location_fraction);
    let resistance = in_range(ranges::FAULT_RESISTANCE, f.fault_resistance);
    let inception = in_range(ranges::INCEPTION_TIME_MS, f.inception_time_ms);
    resistance & fraction & inception & cable
}

// Whether every field of a sweep order is in its range, and its tenths are in order.
pub fn check_order(o: SweepOrder) -> bool
    ensures { result ≡ order_ok o }
{
    let resistance = in_range(ranges::FAULT_RESISTANCE, o.fault_resistance);
    let inception = in_range(ranges::INCEPTION_TIME_MS, o.inception_time_ms);
    let low = whole_in_range(ranges::LOW_TENTH, o.low_tenth);
    let high = whole_in_range(ranges::HIGH_TENTH, o.high_tenth);
    resistance & inception & low & (o.low_tenth <= o.high_tenth) & high
}
