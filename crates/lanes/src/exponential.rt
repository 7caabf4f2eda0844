// E of sixteen numbers. The loop over the terms stands outside and the loop over the lanes inside, in a function of its own, so that
// the divisions of a term are made several at once.
ghost use Rattle.std.specs.Prelude.{◌≡◌, cond, ◌≤◌};
ghost use Rattle.std.specs.Float.{nan};
ghost use Rattle.std.specs.Float.Ieee.{lt, neg};
ghost use Rattle.lists.specs.Tables.{tab, over};
ghost use Rattle.float64.specs.Constants.{nought, one, k700, k1024};
ghost use Rattle.float64.specs.Arithmetic.{◌⊕◌, ◌⊗◌, ◌⊘◌, of};
ghost use Rattle.elementary.specs.Exponential.{term, terms, squared, E};

use crate::LANES;
use crate::squares::square_lanes;

// f64::exp of each lane, whatever out held.
pub fn exp_lanes(out: &mut [f64; LANES], t: &[f64; LANES])
    ensures { out.new ≡ tab LANES (λ j. E (of t.now j)) }
{
    let mut y = [0.0; LANES];
    divide_by_1024(&mut y, t);
    *out = [1.0; LANES];
    add_terms(out, &y);
    square_ten_times(out);
    zero_below_700(out, t);
}

// y of E's definition: the argument scaled down, which the ten squarings undo.
fn divide_by_1024(y: &mut [f64; LANES], t: &[f64; LANES])
    ensures { y.new ≡ over LANES (λ j. of t.now j ⊘ k1024) nan y.old }
{
    for j in 0..LANES {
        y[j] = t[j] / 1024.0;
    }
}

// The eighteen terms, k = 18 first.
fn add_terms(p: &mut [f64; LANES], y: &[f64; LANES])
    ensures { p.new ≡ over LANES (λ j. terms 18 (of y.now j) (of p.old j)) nan p.old }
{
    for k in (1..=18u64).rev() {
        add_term(p, y, k);
    }
}

// p becomes 1 + (y * p) / k. The powers of two are written out: a quotient by such a constant is compiled to a product, which is the same number
// and takes less time.
fn add_term(p: &mut [f64; LANES], y: &[f64; LANES], k: u64)
    requires { k ≤ 18 }
    ensures { p.new ≡ over LANES (λ j. term k (of y.now j) (of p.old j)) nan p.old }
{
    match k {
        1 => add_quotients(p, y, 1.0),
        2 => add_quotients(p, y, 2.0),
        4 => add_quotients(p, y, 4.0),
        8 => add_quotients(p, y, 8.0),
        16 => add_quotients(p, y, 16.0),
        _ => add_quotients(p, y, k as f64),
    }
}

// p becomes 1 + (y * p) / d.
fn add_quotients(p: &mut [f64; LANES], y: &[f64; LANES], d: f64)
    ensures { p.new ≡ over LANES (λ j. one ⊕ of y.now j ⊗ of p.old j ⊘ d) nan p.old }
{
    for j in 0..LANES {
        p[j] = 1.0 + (y[j] * p[j]) / d;
    }
}

// p becomes p to the power of 1,024.
fn square_ten_times(p: &mut [f64; LANES])
    ensures { p.new ≡ over LANES (λ j. squared 10 (of p.old j)) nan p.old }
{
    for _turn in 0..10u64 {
        square_lanes(p);
    }
}

// E is 0 below -700. The test comes last: such a lane has been worked out with the others, and is dropped.
fn zero_below_700(p: &mut [f64; LANES], t: &[f64; LANES])
    ensures { p.new ≡ over LANES (λ j. cond (lt (of t.now j) (neg k700)) nought (of p.old j)) nan p.old }
{
    for j in 0..LANES {
        p[j] = power_or_zero(t[j], p[j]);
    }
}

// 0 where t is below -700; a NaN is not.
fn power_or_zero(t: f64, p: f64) -> f64
    ensures { result ≡ cond (lt t (neg k700)) nought p }
{
    if t < -700.0 { 0.0 } else { p }
}
