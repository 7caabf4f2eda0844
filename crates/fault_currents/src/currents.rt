// The current in amperes at sixteen times t, in seconds after inception, by each response of the circuit. Each function has one loop over the
// lanes or none, so that its operations are made several at once.
ghost use Rattle.std.specs.Prelude.{◌≡◌};
ghost use Rattle.std.specs.Float.{nan};
ghost use Rattle.std.specs.Float.Ieee.{neg};
ghost use Rattle.lists.specs.Tables.{tab, over};
ghost use Rattle.float64.specs.Constants.{nought};
ghost use Rattle.float64.specs.Arithmetic.{◌⊖◌, ◌⊗◌, of};
ghost use Rattle.elementary.specs.Exponential.{E};
ghost use Rattle.elementary.specs.Wave.{S};

use lanes::{LANES, exp_lanes, sin_lanes};

// gain * E(-alpha t) * S(omega_d t)
pub fn underdamped_amperes(
    i: &mut [f64; LANES],
    t: &[f64; LANES],
    gain: f64,
    alpha: f64,
    omega_d: f64,
)
    ensures { i.new ≡ over LANES (λ j. gain ⊗ E (neg alpha ⊗ of t.now j) ⊗ S (omega_d ⊗ of t.now j)) nan i.old }
{
    let mut damping = [0.0; LANES];
    exp_lanes(&mut damping, &scaled(-alpha, t));
    let mut wave = [0.0; LANES];
    sin_lanes(&mut wave, &scaled(omega_d, t));
    multiply(i, gain, &damping, &wave);
}

// gain * (E(s1 t) - E(s2 t))
pub fn overdamped_amperes(i: &mut [f64; LANES], t: &[f64; LANES], gain: f64, s1: f64, s2: f64)
    ensures { i.new ≡ over LANES (λ j. gain ⊗ (E (s1 ⊗ of t.now j) ⊖ E (s2 ⊗ of t.now j))) nan i.old }
{
    let mut first = [0.0; LANES];
    exp_lanes(&mut first, &scaled(s1, t));
    let mut second = [0.0; LANES];
    exp_lanes(&mut second, &scaled(s2, t));
    subtract(i, gain, &first, &second);
}

// gain * t * E(-alpha t)
pub fn critical_amperes(i: &mut [f64; LANES], t: &[f64; LANES], gain: f64, alpha: f64)
    ensures { i.new ≡ over LANES (λ j. gain ⊗ of t.now j ⊗ E (neg alpha ⊗ of t.now j)) nan i.old }
{
    let mut damping = [0.0; LANES];
    exp_lanes(&mut damping, &scaled(-alpha, t));
    multiply(i, gain, t, &damping);
}

// 0 at every time
pub fn no_amperes(i: &mut [f64; LANES])
    ensures { i.new ≡ over LANES (λ j. nought) nan i.old }
{
    *i = [0.0; LANES];
}

// a t
fn scaled(a: f64, t: &[f64; LANES]) -> [f64; LANES]
    ensures { result ≡ tab LANES (λ j. a ⊗ of t.now j) }
{
    let mut x = [0.0; LANES];
    for j in 0..LANES {
        x[j] = a * t[j];
    }
    x
}

// gain * p * q, from the left
fn multiply(i: &mut [f64; LANES], gain: f64, p: &[f64; LANES], q: &[f64; LANES])
    ensures { i.new ≡ over LANES (λ j. gain ⊗ of p.now j ⊗ of q.now j) nan i.old }
{
    for j in 0..LANES {
        i[j] = gain * p[j] * q[j];
    }
}

// gain * (p - q)
fn subtract(i: &mut [f64; LANES], gain: f64, p: &[f64; LANES], q: &[f64; LANES])
    ensures { i.new ≡ over LANES (λ j. gain ⊗ (of p.now j ⊖ of q.now j)) nan i.old }
{
    for j in 0..LANES {
        i[j] = gain * (p[j] - q[j]);
    }
}
