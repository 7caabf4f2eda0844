// S and C, which stand for sin and cos.
ghost use Rattle.std.specs.Prelude.{◌≡◌, ◌≤◌};
ghost use Rattle.float64.specs.Constants.{one};
ghost use Rattle.elementary.specs.Wave.{reduced_angle, series, divisor, S, C};

use float64::{PI, clamp, whole_part};

// w
const TURN: f64 = 2.0 * PI;

// f64::sin
pub fn sin(t: f64) -> f64
    ensures { result ≡ S t }
{
    let r = reduced_angle(t);
    clamp(r * series_of(r * r, 1), -1.0, 1.0)
}

// f64::cos
pub fn cos(t: f64) -> f64
    ensures { result ≡ C t }
{
    clamp(series_of(t * t, 0), -1.0, 1.0)
}

// The angle less its whole turns: r of S.
pub fn reduced_angle(t: f64) -> f64
    ensures { result ≡ reduced_angle t }
{
    let n = whole_part(t / TURN);
    let r = t - n * TURN;
    if r > PI { r - TURN } else { r }
}

// The thirteen terms at x = r * r, as a sine (odd = 1) or a cosine (odd = 0) has them.
fn series_of(x: f64, odd: u64) -> f64
    requires { odd ≤ 1 }
    ensures { result ≡ series (divisor odd) 13 x one }
{
    let mut q = 1.0;
    for k in (1..=13u64).rev() {
        let d = 2 * k + odd;
        q = 1.0 - (x * q) / ((d * (d - 1)) as f64);
    }
    q
}
