// E, which stands for exp.
ghost use Rattle.std.specs.Prelude.{◌≡◌};
ghost use Rattle.elementary.specs.Exponential.{E};

// f64::exp
pub fn exp(t: f64) -> f64
    ensures { result ≡ E t }
{
    if t < -700.0 {
        return 0.0;
    }
    let y = t / 1024.0;
    let mut p = 1.0;
    for k in (1..=18u64).rev() {
        p = 1.0 + (y * p) / (k as f64);
    }
    for _turn in 0..10u64 {
        p = p * p;
    }
    p
}
