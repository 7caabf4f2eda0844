// How many parts of a kind there are, never more than their array has places for.
ghost use Rattle.std.specs.Prelude.{◌≡◌, ◌≤◌, min};

use crate::simulator::{MOST_BREAKERS, MOST_CABLES, MOST_STATIONS};

// How many of MOST places are taken, from the first on.
#[derive(Clone, Copy)]
pub struct Count<const MOST: usize> {
    pub value: usize,
    ghost fits: { value ≤ MOST },
}

pub type StationCount = Count<MOST_STATIONS>;

pub type CableCount = Count<MOST_CABLES>;

pub type BreakerCount = Count<MOST_BREAKERS>;

impl<const MOST: usize> Count<MOST> {
    // A count past the places takes all of them.
    pub fn of(count: usize) -> Self
        ensures { result.value ≡ min count MOST }
    {
        Count {
            value: count.min(MOST),
        }
    }
}
