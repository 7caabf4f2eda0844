// A line to one of the five kinds, or to none where its form is wrong.
ghost use Rattle.std.specs.Prelude.{◌≡◌};
ghost use Rattle.sheet_lines.specs.Lines.{line_of, times_line, order_line, station_line, cable_line, breaker_line, topology_of, breaker_type_of};

use crate::fields::{Form, four_reals, is_formed, real, three_wholes, whole};
use grid::{ConverterStation, ConverterTopology, DcBreaker, DcBreakerType, DcCable, SweepOrder};

// What a line says. A station is known if its topology is one of the four and its submodules are 0
// or an MMC's, a breaker if its kind is one of the three and it is not a mechanical one with a second number: rules 6 and 8 refuse others.
#[derive(Clone, Copy)]
pub enum SheetLine {
    Times {
        dt_us: f64,
        duration_ms: f64,
    },
    Order(SweepOrder),
    Station {
        station: ConverterStation,
        known: bool,
    },
    Cable(DcCable),
    Breaker {
        breaker: DcBreaker,
        known: bool,
    },
}

// The forms of the five lines.
const TIMES: Form = Form {
    first_whole: 0,
    wholes: 0,
    first_real: 0,
    reals: 2,
};

const ORDER: Form = Form {
    first_whole: 2,
    wholes: 2,
    first_real: 0,
    reals: 2,
};

const STATION: Form = Form {
    first_whole: 0,
    wholes: 3,
    first_real: 3,
    reals: 8,
};

const CABLE: Form = Form {
    first_whole: 0,
    wholes: 3,
    first_real: 3,
    reals: 4,
};

const BREAKER: Form = Form {
    first_whole: 0,
    wholes: 3,
    first_real: 3,
    reals: 4,
};

// T: time step, duration.
fn times_line(line: &[u8]) -> Option<SheetLine>
    ensures { result ≡ times_line line.now }
{
    if is_formed(line, TIMES) {
        return Some(SheetLine::Times {
            dt_us: real(line, 0),
            duration_ms: real(line, 1),
        });
    }
    None
}

// O: resistance, inception, low tenth, high tenth.
fn order_line(line: &[u8]) -> Option<SheetLine>
    ensures { result ≡ order_line line.now }
{
    if is_formed(line, ORDER) {
        return Some(SheetLine::Order(SweepOrder {
            fault_resistance: real(line, 0),
            inception_time_ms: real(line, 1),
            low_tenth: whole(line, 2),
            high_tenth: whole(line, 3),
        }));
    }
    None
}

// The topology of a number. Each number has one: one beyond the four is refused by rule 6, and read as the first.
#[tactic(auto, unfolding(crate::specs::Lines::topology_of))]
fn topology_of(topology: u64, submodules: u64) -> ConverterTopology
    ensures { result ≡ topology_of topology submodules }
{
    match topology {
        1 => ConverterTopology::TwoLevelVsc,
        2 => ConverterTopology::Mmc {
            n_submodules: submodules,
        },
        3 => ConverterTopology::Hybrid,
        _ => ConverterTopology::Lcc,
    }
}

// S: topology, submodules, id, then the eight fields of a station.
fn station_line(line: &[u8]) -> Option<SheetLine>
    ensures { result ≡ station_line line.now }
{
    if is_formed(line, STATION) {
        let numbers = three_wholes(line);
        let topology = numbers.first;
        let submodules = numbers.second;
        let outer = four_reals(line, 3);
        let inner = four_reals(line, 7);
        let station = ConverterStation {
            id: numbers.third,
            topology: topology_of(topology, submodules),
            v_dc_rated_kv: outer.first,
            p_rated_mw: outer.second,
            x_transformer_pu: outer.third,
            scr: outer.fourth,
            control_angle_deg: inner.first,
            x_commutation_pu: inner.second,
            arm_inductance_mh: inner.third,
            sm_capacitance_uf: inner.fourth,
        };
        let known = (topology <= 3) & ((submodules == 0) | (topology == 2));
        return Some(SheetLine::Station { station, known });
    }
    None
}

// C: id, from, to, R, L, C, length.
fn cable_line(line: &[u8]) -> Option<SheetLine>
    ensures { result ≡ cable_line line.now }
{
    if is_formed(line, CABLE) {
        let numbers = three_wholes(line);
        let rates = four_reals(line, 3);
        return Some(SheetLine::Cable(DcCable {
            id: numbers.first,
            from_station: numbers.second,
            to_station: numbers.third,
            r_per_km: rates.first,
            l_per_km: rates.second,
            c_per_km: rates.third,
            length_km: rates.fourth,
        }));
    }
    None
}

// The kind of a breaker with its numbers. Each number has a kind: one beyond the three is refused by rule 8, and read as the first.
#[tactic(auto, unfolding(crate::specs::Lines::breaker_type_of))]
fn breaker_type_of(kind: u64, time: f64, second: f64) -> DcBreakerType
    ensures { result ≡ breaker_type_of kind time second }
{
    match kind {
        1 => DcBreakerType::SolidState {
            turn_off_time_us: time,
            on_state_loss_pct: second,
        },
        2 => DcBreakerType::HybridBreaker {
            opening_time_ms: time,
            commutation_time_us: second,
        },
        _ => DcBreakerType::Mechanical {
            opening_time_ms: time,
        },
    }
}

// B: id, station, kind, time, second number, current, energy.
fn breaker_line(line: &[u8]) -> Option<SheetLine>
    ensures { result ≡ breaker_line line.now }
{
    if is_formed(line, BREAKER) {
        let numbers = three_wholes(line);
        let kind = numbers.third;
        let limits = four_reals(line, 3);
        let second = limits.second;
        let breaker = DcBreaker {
            id: numbers.first,
            station_id: numbers.second,
            breaker_type: breaker_type_of(kind, limits.first, second),
            max_breaking_current_ka: limits.third,
            energy_absorption_mj: limits.fourth,
        };
        let known = (kind <= 2) & ((second == 0.0) | (kind != 0));
        return Some(SheetLine::Breaker { breaker, known });
    }
    None
}

// What a line says, its line feed in it; nothing if its form is wrong.
#[tactic(auto, unfolding(crate::specs::Lines::line_of))]
pub fn line_of(line: &[u8]) -> Option<SheetLine>
    ensures { result ≡ line_of line.now }
{
    if line.len() == 0 {
        return None;
    }
    match line[0] {
        b'T' => times_line(line),
        b'O' => order_line(line),
        b'S' => station_line(line),
        b'C' => cable_line(line),
        b'B' => breaker_line(line),
        _ => None,
    }
}
