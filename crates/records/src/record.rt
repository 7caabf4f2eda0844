// A state as a record in lent memory: time, fault current, voltages, station currents, cable currents, breakers.
ghost use Rattle.std.specs.Prelude.{◌≡◌, cond, [], ◌+◌, ◌≤◌, length, map};
ghost use Rattle.std.proofs.lemmas.List.Edits.{sets};
ghost use Rattle.records.specs.Records.{closed_number, Counted, counts_of, numbers_in, record_by, fits_in, puts};

use grid::{
    BreakerCount, CableCount, DcSwitchingSimulator, MOST_BREAKERS, MOST_CABLES, MOST_STATIONS,
    StationCount,
};
use state_derivatives::DcTransientState;

// How many of each a record has.
#[derive(Clone, Copy)]
pub struct RecordCounts {
    pub stations: usize,
    pub cables: usize,
    pub breakers: usize,
}

// How many of each the records of a grid have: its counts, cut to the arrays.
pub fn record_counts(g: DcSwitchingSimulator) -> RecordCounts
    ensures { result ≡ counts_of g }
{
    RecordCounts {
        stations: StationCount::of(g.n_stations).value,
        cables: CableCount::of(g.n_cables).value,
        breakers: BreakerCount::of(g.n_breakers).value,
    }
}

// Writes the record of a step that is recorded from a position on, where the whole of it fits, and says how many records that were.
pub fn put_if_recorded(
    recorded: bool,
    records: &mut [f64],
    at: usize,
    state: DcTransientState,
    counts: RecordCounts,
) -> usize
    ensures answer { result ≡ cond (puts recorded counts at (length records.old)) 1 0 }
    ensures memory { records.new ≡ sets records.old at (cond (puts recorded counts at (length records.old)) (record_by counts state) []) }
{
    if recorded & fits(counts, at, records.len()) {
        put_record(records, at, state, counts);
        return 1;
    }
    0
}

// Whether a state has places for so many parts, and the whole record lies within the memory.
fn fits(counts: RecordCounts, at: usize, len: usize) -> bool
    ensures { result ≡ fits_in counts at len }
{
    counts.stations <= MOST_STATIONS
        && counts.cables <= MOST_CABLES
        && counts.breakers <= MOST_BREAKERS
        && at <= len
        && 2 + 2 * counts.stations + counts.cables + counts.breakers <= len - at
}

// A state's record. The counts are any numbers, so that they fit is asked (`Counted`): with a `Count` for each in `RecordCounts`, `put_if_recorded` would take fewer counts than it does.
fn put_record(records: &mut [f64], at: usize, state: DcTransientState, counts: RecordCounts)
    requires { Counted counts × (at + numbers_in counts ≤ length records.old) }
    ensures { records.new ≡ sets records.old at (record_by counts state) }
{
    let y = state.y;
    let currents = state.station_currents_ka;
    let breakers = state.breaker_states;
    let n = counts.stations;
    let m = counts.cables;
    let voltages = at + 2;
    let station_currents = voltages + n;
    let cable_currents = station_currents + n;
    records[at] = state.time_ms;
    records[at + 1] = state.fault_current_ka;
    put_numbers(records, voltages, &y[..n]);
    put_numbers(records, station_currents, &currents[..n]);
    put_numbers(records, cable_currents, &y[n..n + m]);
    put_breakers(records, cable_currents + m, &breakers[..counts.breakers]);
}

// Writes numbers from a position on.
fn put_numbers(records: &mut [f64], at: usize, numbers: &[f64])
    requires { at + length numbers.now ≤ length records.old }
    ensures { records.new ≡ sets records.old at numbers.now }
{
    records[at..at + numbers.len()].copy_from_slice(numbers);
}

// Writes breakers, 1 closed and 0 open.
fn put_breakers(records: &mut [f64], at: usize, breakers: &[bool])
    requires { at + length breakers.now ≤ length records.old }
    ensures { records.new ≡ sets records.old at (map closed_number breakers.now) }
{
    for (i, closed) in breakers.iter().enumerate() {
        records[at + i] = closed_number(*closed);
    }
}

fn closed_number(closed: bool) -> f64
    ensures { result ≡ closed_number closed }
{
    if closed { 1.0 } else { 0.0 }
}
