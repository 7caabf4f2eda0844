// Requests in. A request is 13 lines of a number each, right-justified in 21 columns after spaces, then a line feed. Doubles are given by
// their bits.
ghost use Rattle.std.specs.Prelude.{◌<◌};

use crate::grids::Order;
use float64::from_bits;
use std::io;
use std::io::Read;

const COLUMNS: usize = 21;
// With the line feed.
const LINE: usize = COLUMNS + 1;

const LINES: usize = 13;

const ROOM: usize = LINES * LINE;

// What a program in Rust has timed and compared.
#[derive(Clone, Copy)]
pub enum Work {
    SquareRoot,
    Exponential,
    Sine,
    Cosine,
    LccPoint,
    VscPoint,
    FaultCurrent,
    FastestBreaker,
    FaultRefusal,
    Flow,
    Steps,
    FaultRun,
    SwitchingRun,
    Decimals,
}

impl Work {
    // The work of a number, if there is one.
    fn of(number: u64) -> Option<Work> {
        match number {
            1 => Some(Work::SquareRoot),
            2 => Some(Work::Exponential),
            3 => Some(Work::Sine),
            4 => Some(Work::Cosine),
            5 => Some(Work::LccPoint),
            6 => Some(Work::VscPoint),
            7 => Some(Work::FaultCurrent),
            8 => Some(Work::FastestBreaker),
            9 => Some(Work::FaultRefusal),
            10 => Some(Work::Flow),
            11 => Some(Work::Steps),
            12 => Some(Work::FaultRun),
            13 => Some(Work::SwitchingRun),
            14 => Some(Work::Decimals),
            _ => None,
        }
    }
}

// Which work is done, if there is such, how often, at which argument first and how much more in each turn after it, and on which grid and
// fault.
#[derive(Clone, Copy)]
pub struct Request {
    pub work: Option<Work>,
    pub turns: Turns,
    pub inception_ms: f64,
    pub order: Order,
}

// So many turns, at the arguments first, first + step, and so on.
#[derive(Clone, Copy)]
pub struct Turns {
    pub count: u64,
    pub first: f64,
    pub step: f64,
}

impl Turns {
    // Adds up what each turn gives at its argument and the number of turns left, this one counted.
    pub fn sum<F: FnMut(f64, u64) -> f64>(self, mut turn: F) -> f64
        requires { F.IsAlwaysCallable turn }
    {
        let mut sum = 0.0;
        let mut x = self.first;
        for left in (1..=self.count).rev() {
            sum += turn(x, left);
            x += self.step;
        }
        sum
    }
}

// The next request, or why there is none.
pub fn read(rt: &impl Input) -> io::Result<Request> {
    let mut lines = [0u8; ROOM];
    rt.reader().read_exact(&mut lines)?;
    Ok(request_in(&lines))
}

fn request_in(lines: &[u8; ROOM]) -> Request {
    Request {
        work: Work::of(number_at(lines, 0)),
        turns: Turns {
            count: number_at(lines, 1),
            first: double_at(lines, 2),
            step: double_at(lines, 3),
        },
        inception_ms: double_at(lines, 4),
        order: order_in(lines),
    }
}

fn order_in(lines: &[u8; ROOM]) -> Order {
    Order {
        dt_us: double_at(lines, 5),
        duration_ms: double_at(lines, 6),
        stations: number_at(lines, 7),
        cables: number_at(lines, 8),
        breakers: number_at(lines, 9),
        power_mw: double_at(lines, 10),
        ohms_per_km: double_at(lines, 11),
        breaker_ms: double_at(lines, 12),
    }
}

fn double_at(lines: &[u8; ROOM], line: usize) -> f64
    requires { line < LINES }
{
    from_bits(number_at(lines, line))
}

// The number in a line, counted from 0. A space counts as a 0. What is no digit, or too many of them, gives some number: the requests are the
// timing program's own.
fn number_at(lines: &[u8; ROOM], line: usize) -> u64
    requires { line < LINES }
{
    let at = line * LINE;
    let mut n: u64 = 0;
    for glyph in &lines[at..at + COLUMNS] {
        n = n.wrapping_mul(10).wrapping_add(u64::from(*glyph & 15));
    }
    n
}
