// `max`, `min`, `abs` and `clamp`.
ghost use Rattle.std.specs.Prelude.{◌≡◌, cond};
ghost use Rattle.std.specs.Float.Ieee.{lt};
ghost use Rattle.float64.specs.Choice.{max_of, min_of, abs_of, clamp_of};

// f64::max
pub fn max(a: f64, b: f64) -> f64
    ensures { result ≡ max_of a b }
{
    if a != a {
        return b;
    }
    if a < b { b } else { a }
}

// f64::min
pub fn min(x: f64, y: f64) -> f64
    ensures { result ≡ min_of x y }
{
    if x != x {
        return y;
    }
    if y < x { y } else { x }
}

// f64::abs. The difference clears the sign of a zero too, which a negation would not.
pub fn abs(x: f64) -> f64
    ensures { result ≡ abs_of x }
{
    if x <= 0.0 { 0.0 - x } else { x }
}

// f64::clamp, which would panic where low is above high or one of them is NaN
pub fn clamp(x: f64, low: f64, high: f64) -> f64
    ensures { result ≡ clamp_of x low high }
{
    at_most(at_least(x, low), high)
}

fn at_least(x: f64, low: f64) -> f64
    ensures { result ≡ cond (lt x low) low x }
{
    if x < low { low } else { x }
}

fn at_most(x: f64, high: f64) -> f64
    ensures { result ≡ cond (lt high x) high x }
{
    if high < x { high } else { x }
}
