// S of sixteen numbers, its terms outside and the lanes inside, as E's.
ghost use Rattle.std.specs.Prelude.{◌≡◌};
ghost use Rattle.std.specs.Float.{nan};
ghost use Rattle.lists.specs.Tables.{tab, over};
ghost use Rattle.float64.specs.Constants.{one};
ghost use Rattle.float64.specs.Arithmetic.{◌⊖◌, ◌⊗◌, ◌⊘◌, of};
ghost use Rattle.elementary.specs.Wave.{reduced_angle, series, sine_divisor, to_unit, S};

use crate::LANES;
use crate::squares::square_lanes;
use elementary::reduced_angle;
use float64::clamp;

// f64::sin of each lane, whatever out held.
pub fn sin_lanes(out: &mut [f64; LANES], t: &[f64; LANES])
    ensures { out.new ≡ tab LANES (λ j. S (of t.now j)) }
{
    let mut r = [0.0; LANES];
    reduce_angles(&mut r, t);
    let mut x = r;
    square_lanes(&mut x);
    *out = [1.0; LANES];
    subtract_terms(out, &x);
    clamp_products(out, &r);
}

// r of S's definition: the angle less its whole turns.
fn reduce_angles(r: &mut [f64; LANES], t: &[f64; LANES])
    ensures { r.new ≡ over LANES (λ j. reduced_angle (of t.now j)) nan r.old }
{
    for j in 0..LANES {
        r[j] = reduced_angle(t[j]);
    }
}

// The thirteen terms, k = 13 first. The divisor 2k(2k+1) is made a double once for all lanes.
fn subtract_terms(q: &mut [f64; LANES], x: &[f64; LANES])
    ensures { q.new ≡ over LANES (λ j. series sine_divisor 13 (of x.now j) (of q.old j)) nan q.old }
{
    for k in (1..=13u64).rev() {
        let d = 2 * k + 1;
        subtract_term(q, x, (d * (d - 1)) as f64);
    }
}

// q becomes 1 - (x * q) / d.
fn subtract_term(q: &mut [f64; LANES], x: &[f64; LANES], d: f64)
    ensures { q.new ≡ over LANES (λ j. one ⊖ of x.now j ⊗ of q.old j ⊘ d) nan q.old }
{
    for j in 0..LANES {
        q[j] = 1.0 - (x[j] * q[j]) / d;
    }
}

// r * q, cut to -1..1; a NaN stays.
fn clamp_products(q: &mut [f64; LANES], r: &[f64; LANES])
    ensures { q.new ≡ over LANES (λ j. to_unit (of r.now j ⊗ of q.old j)) nan q.old }
{
    for j in 0..LANES {
        q[j] = clamp(r[j] * q[j], -1.0, 1.0);
    }
}
