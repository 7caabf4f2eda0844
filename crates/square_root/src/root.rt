// The square root, digit by digit in whole numbers.
ghost use Rattle.std.specs.Prelude.{◌≡◌, ◌+◌, ◌-◌, ◌*◌, ◌^◌, ◌≤◌, ◌<◌, cond, T, leb};
ghost use Rattle.std.specs.Float.Ieee.Positive.{positive};
ghost use Rattle.square_root.specs.Root.{root_of};
ghost use Rattle.square_root.specs.RootDigits.{FloorOf, NearestWhole, RootPattern, Shifted};

// 2^52: the first of a normal double's 53 digits, which its pattern leaves out.
const HIDDEN_DIGIT: u64 = 0x10_0000_0000_0000;

// f64::sqrt
pub fn sqrt(x: f64) -> f64
    ensures { result ≡ root_of x }
{
    if x != x {
        return x;
    }
    if x < 0.0 {
        return 0.0 / 0.0;
    }
    if x == 0.0 {
        return x;
    }
    if f64::to_bits(x) == 0x7ff0_0000_0000_0000 {
        return x;
    }
    root_of_positive(x)
}

// A number above zero is m * 2^w units of 2^-1074, m of 53 digits; its root is found from m and w.
fn root_of_positive(x: f64) -> f64
    requires { T (positive x) }
    ensures { result ≡ root_of x }
{
    let b = f64::to_bits(x);
    let e = b / HIDDEN_DIGIT;
    let f = b % HIDDEN_DIGIT;
    if e == 0 {
        f64::from_bits(root_pattern(normalised(f)))
    } else {
        let digits = f + HIDDEN_DIGIT;
        let scale = e + 1021;
        f64::from_bits(root_pattern(Normal { digits, scale }))
    }
}

// 53 binary digits, and a power of two, at most a double's.
#[derive(Clone, Copy)]
struct Normal {
    digits: u64,
    scale: u64,
    ghost long: { (2 ^ 52 ≤ digits) × (digits < 2 ^ 53) },
    ghost in_range: { scale ≤ 3067 },
}

// A subnormal's digits, shifted until there are 53: 11 of a number's 64 are above those.
fn normalised(f: u64) -> Normal
    requires { (0 < f) × (f < 2 ^ 52) }
    ensures { Shifted f result.digits result.scale }
{
    let shift = f.leading_zeros() - 11;
    Normal {
        digits: f << shift,
        scale: 1022 - shift as u64,
    }
}

// The pattern of the root of m * 2^52 * 2^w, m the digits and w the scale.
fn root_pattern(n: Normal) -> u64
    ensures { RootPattern n.digits n.scale result }
{
    let place = n.scale / 2;
    if n.scale % 2 == 0 {
        place * HIDDEN_DIGIT + nearest_root(n.digits)
    } else {
        place * HIDDEN_DIGIT + nearest_root(n.digits * 2)
    }
}

// The whole number nearest to the root of m * 2^52. There is no tie: the root would be q + 1/2, and its square is not whole.
fn nearest_root(m: u64) -> u64
    requires { (2 ^ 52 ≤ m) × (m < 2 ^ 54) }
    ensures { NearestWhole (m * 2 ^ 52) result × ((2 ^ 52 ≤ result) × (result ≤ 2 ^ 53)) }
{
    let s = floor_root(m);
    if s.root < s.rest { s.root + 1 } else { s.root }
}

// A root cut to a whole number, and what is left of the radicand.
#[derive(Clone, Copy)]
struct Floor {
    root: u64,
    rest: u64,
}

// The root of m * 2^52, two binary digits of the radicand a step: first the 54 of m, then the 52 zeros.
fn floor_root(m: u64) -> Floor
    requires { (2 ^ 52 ≤ m) × (m < 2 ^ 54) }
    ensures { FloorOf (m * 2 ^ 52) result.root result.rest }
{
    let mut s = Floor { root: 0, rest: 0 };
    for k in (0..27u64).rev() {
        s = next_digit(s, (m >> (2 * k)) % 4);
    }
    for _turn in 0..26u64 {
        s = next_digit(s, 0);
    }
    s
}

// Two more binary digits of the radicand, and one more of the root.
fn next_digit(s: Floor, two: u64) -> Floor
    requires { (s.root < 2 ^ 53) × (s.rest ≤ 2 * s.root) × (two < 4) }
    ensures { FloorOf (4 * (s.root * s.root + s.rest) + two) result.root result.rest }
{
    let rest = s.rest * 4 + two;
    let t = s.root * 4 + 1;
    Floor {
        root: s.root * 2 + within(t, rest, 1),
        rest: rest - within(t, rest, t),
    }
}

// v where t is at most rest, else 0. The digits of a root follow no pattern, so they are chosen without a branch: a processor would
// mispredict about half of the branches on them.
fn within(t: u64, rest: u64, v: u64) -> u64
    ensures { result ≡ cond (leb t rest) v 0 }
{
    if t <= rest { v } else { 0 }
}
