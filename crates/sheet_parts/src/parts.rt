// A grid with a part more. The parts past the length of an array are counted and not kept: rule 3 refuses their number.
ghost use Rattle.std.specs.Prelude.{◌≡◌};
ghost use Rattle.sheet_parts.specs.Parts.{counted_on, station_taken, cable_taken, breaker_taken};

use grid::{
    ConverterStation, DcBreaker, DcCable, DcSwitchingSimulator, MOST_BREAKERS, MOST_CABLES,
    MOST_STATIONS,
};

// The widest line number that a refusal can print. Reading stops there.
pub const MOST_LINES: usize = 999_999_999_999;

// One more. A sheet has at most MOST_LINES lines, so that no count of them goes beyond.
pub fn counted_on(count: usize) -> usize
    ensures { result ≡ counted_on count }
{
    if count < MOST_LINES { count + 1 } else { count }
}

// A grid with a station more. Past the last place it is counted, and not kept. The three differ in the array and the count that they name.
pub fn with_station(g: DcSwitchingSimulator, station: ConverterStation) -> DcSwitchingSimulator
    ensures { result ≡ station_taken g station }
{
    let mut grid = g;
    let n = grid.n_stations;
    grid.n_stations = counted_on(n);
    if n < MOST_STATIONS {
        grid.stations[n] = station;
    }
    grid
}

// A grid with a cable more. Past the last place it is counted, and not kept.
pub fn with_cable(g: DcSwitchingSimulator, cable: DcCable) -> DcSwitchingSimulator
    ensures { result ≡ cable_taken g cable }
{
    let mut grid = g;
    let n = grid.n_cables;
    grid.n_cables = counted_on(n);
    if n < MOST_CABLES {
        grid.cables[n] = cable;
    }
    grid
}

// A grid with a breaker more. Past the last place it is counted, and not kept.
pub fn with_breaker(g: DcSwitchingSimulator, breaker: DcBreaker) -> DcSwitchingSimulator
    ensures { result ≡ breaker_taken g breaker }
{
    let mut grid = g;
    let n = grid.n_breakers;
    grid.n_breakers = counted_on(n);
    if n < MOST_BREAKERS {
        grid.breakers[n] = breaker;
    }
    grid
}
